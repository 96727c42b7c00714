// Words for the count book: a session's lines read into calls, and its replies told in plain words.
// A line is words with one blank between two of them. Reading goes from left to right, and the first
// word that does not fit is named by what was expected in its place.
#![tactic(auto)]

mod answers;
mod calls;
mod expected;
mod kinds;
mod numbers;
mod opening;
mod words;

pub use answers::{AnswerLine, KeyLine, UnreadableLine};
pub use calls::read_call;
pub use expected::Expected;
pub use kinds::Worded;
pub use opening::{Kind, Opening, Part, read_opening};
pub use words::Words;
