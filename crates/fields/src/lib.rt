// The fields of telegrams and replies: a tag byte, a two-byte length (high byte first) and the value.
// A field is handed out as a part of the bytes it was read from, with its offset in them. Each tag has
// one length; a field that is cut off, has an unknown tag or another length does not fit.
// A reader takes fields from the front one after another, each by the tag that is expected there.
#![tactic(auto)]

mod parts;
mod reader;
mod tag;
mod value;

pub use parts::{Field, Misfit, next_field};
pub use reader::Reader;
pub use tag::{Tag, UnknownTag};
pub use value::{RawFrame, Value};
