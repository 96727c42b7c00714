// The calls of a book by value. A key is shown by its book number, and a read brings a row of so many
// frames.
use book::Mode;

#[derive(Clone, Copy)]
pub enum Call<R> {
    Enter {
        time: u32,
        record: R,
    },
    Start {
        key: u16,
    },
    Stop {
        key: u16,
    },
    SetMode {
        key: u16,
        mode: Mode,
    },
    Release {
        key: u16,
        position: u32,
    },
    Listen {
        party: u8,
        mark: (u32, u32),
        fill: u8,
    },
    Since {
        mark: (u32, u32),
        limit: u16,
        room: u16,
    },
    Oldest {
        room: u16,
    },
    Youngest {
        room: u16,
    },
    Span {
        first: u32,
        last: u32,
        limit: u16,
        room: u16,
    },
    Take,
    HandBack {
        key: u16,
    },
}

// Those of them that show a key and leave it with its holder; data, since definitions and orders name them.
#[derive(Clone, Copy)]
pub enum Keyed {
    Start,
    Stop,
    SetMode(Mode),
    Release(u32),
}

// The reads, without their rows; data for the same reason.
#[derive(Clone, Copy)]
pub enum Read {
    Since { mark: (u32, u32), limit: u16 },
    Oldest,
    Youngest,
    Span { first: u32, last: u32, limit: u16 },
}
