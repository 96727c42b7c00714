// A telegram and a reply buffer handed to a book: the call that the telegram names is carried out, and
// its answer is written as a reply. Start, stop and release take the key and hand it back on every
// path. Every telegram, of any length and content, has one outcome.
#![tactic(auto)]

mod answering;
mod carrying;
mod exchanging;
mod orders;

pub use exchanging::exchange;
pub use orders::{Order, Said, Served};
