// Requests: a telegram's bytes read into the call that it names, with the checks in their order:
// length (11), buffer (10), seal (12), the method field's form (13), the method (14), the form of the
// rest (13), limit or party (15), interval (16). What the record's words say is checked when the call
// is carried out.
#![tactic(auto)]

mod checks;
mod faults;
mod naming;
mod parsing;

pub use checks::{check_length, check_seal};
pub use faults::{Layer, TelegramFault};
pub use naming::Request;
pub use parsing::{read_request, worked_requests};
