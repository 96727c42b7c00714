// What a reply says.
use book::{Entered, Reading};

#[derive(Clone, Copy, PartialEq, Eq, Debug)]
pub enum Reply {
    // an accepted call that answers nothing more
    Done,
    // of a refusal the wire carries no more than its number, one of four layers' together
    Refused(u16),
    Entered(Entered),
    // the frames themselves come after it
    Read(Reading),
}
