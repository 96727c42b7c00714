// The reading end: a reply's bytes back into what the station answered. Bytes are taken exactly where
// they are one of the three layouts, as a reply is written; everything is checked before the first
// frame is stored. Whatever reply is written reads back as what went in.
#![tactic(auto)]

mod frames;
mod laws;
mod layouts;
mod reading;
mod reply;

pub use laws::{layouts_exact, replies_read_back};
pub use reading::read_reply;
pub use reply::Reply;
