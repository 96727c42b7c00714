// The turns of a run: calls of the book and telegrams to it, in any mixture.
use runs::{Call, Reply};

#[derive(Drop)]
pub enum Turn<R> {
    Call(Call<R>),
    // with a row of so many frames and a reply buffer of so many bytes
    Telegram {
        bytes: Vec<u8>,
        frames: u16,
        buffer: u16,
    },
}

// What comes back of a turn.
#[derive(Drop)]
pub enum Answer<R> {
    Told(Reply<R>),
    // the bytes of a telegram's reply, none where none is made
    Replied(Vec<u8>),
}
