// The call that a telegram names.
#[derive(Clone, Copy, PartialEq, Eq, Debug)]
pub enum Request {
    Since {
        mark: (u32, u32),
        limit: u16,
    },
    Oldest,
    Youngest,
    Span {
        first: u32,
        last: u32,
        limit: u16,
    },
    Listen {
        party: u8,
        mark: (u32, u32),
        fill: u8,
    },
    Start,
    Stop,
    Release {
        position: u32,
    },
    Enter {
        time: u32,
        words: [u32; 4],
    },
}
