// What a call of a run is answered.
use book::{BookFault, Entered, Reading};
use records::Frame;

pub type Reply<R> = Result<Accepted<R>, BookFault>;

#[derive(Drop)]
pub enum Accepted<R> {
    Done,
    Entered(Entered),
    // a read as the book answered it, so with its count, and the frames that it gave
    Gave(Reading, Vec<Frame<R>>),
    // the key of this book was taken
    Key(u16),
}
