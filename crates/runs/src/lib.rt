// Runs: any list of calls on a new book, and the law that holds of every such list.
// `run` carries out each call on the book as those before left it and gives all replies. Its
// contract is the law over whole runs, told over calls and answers: what any reader receives, when
// frames leave, and which parties are called. A `Session` is a book in use, with its key while that is out.
#![tactic(auto)]

mod asked;
mod keys;
mod lent;
mod reading;
mod replies;
mod running;
mod session;

pub use asked::{Call, Keyed, Read};
pub use keys::show;
pub use lent::carry_out;
pub use reading::ask;
pub use replies::{Accepted, Reply};
pub use running::{Outcome, run};
pub use session::Session;
