// What a telegram asks of a book, and what the book says to it.
use book::{Entered, Reading};
use requests::TelegramFault;
use runs::{Keyed, Read};

// A request again, but grouped by what a book does with it, and an entry with its record in place of words.
#[derive(Clone, Copy)]
pub enum Order<R> {
    Enter {
        time: u32,
        record: R,
    },
    Listen {
        party: u8,
        mark: (u32, u32),
        fill: u8,
    },
    // takes the key first, and hands it back
    Show(Keyed),
    Ask(Read),
}

// Not what a call of a run is answered: the frames lie in the caller's row, and no key is given out.
#[derive(Clone, Copy)]
pub enum Said {
    Done,
    Entered(Entered),
    // the frames lie in the row
    Gave(Reading),
}

// How a telegram was served: how many bytes of the buffer its reply takes, none where none is made (no
// Option, since the buffer's front of that length is the reply either way), and whether what it asked was done.
#[derive(Clone, Copy)]
pub struct Served {
    pub reply: usize,
    pub outcome: Result<(), TelegramFault>,
}
