// Telegrams one after another in a stream of bytes: each stands after its length, four bytes with the
// high byte first. An input is cut into its telegrams, and a reply is put behind an output likewise.
#![tactic(auto)]

mod cutting;
mod laws;
mod putting;

pub use cutting::{Piece, cut};
pub use laws::put_is_cut;
pub use putting::put;
