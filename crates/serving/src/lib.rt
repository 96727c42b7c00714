// What a stretch of input makes a station write: every whole telegram in it is served in order, and the
// replies are put behind an output, each after its length.
#![tactic(auto)]

mod laws;
mod stretches;

pub use laws::stretches_join;
pub use stretches::{Stretch, serve_stretch};
