// Runs of calls and telegrams on a new book, in any mixture, and the law that holds of every such run.
// `run` carries out each on the book as those before left it and gives all that comes back. Its
// contract has the law over whole runs, told over calls and answers, as that of `runs` has it for
// calls alone: a telegram counts as the call that it names, with what the reading end takes from its
// reply as the answer. `serve` is the exchange of one telegram, after which the law goes on holding.
#![tactic(auto)]

mod running;
mod sending;
mod serving;
mod turns;

pub use running::run;
pub use runs::Outcome;
pub use serving::serve;
pub use turns::{Answer, Turn};
