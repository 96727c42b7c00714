// Any list of calls on a new book.
ghost use Rattle.std.specs.Prelude.{◌≡◌, ℕ, List, map, length, IfOk};
ghost use Rattle.book.specs.State.{new_list};
ghost use Rattle.runs.specs.Answers.{answer_of};
ghost use Rattle.runs.specs.Steps.{HeldKey, world, world_of, answers, after};
ghost use Rattle.runs.specs.Kinds.{kind_of};
ghost use Rattle.runs.specs.Sound.{Sound};
ghost use Rattle.runs.specs.Throughout.{Throughout};

use crate::session::Session;
use crate::{Call, Reply};
use records::{Frame, Record};
use std::alloc::{AllocError, Global};
use trays::{Slot, Tray};

// What a run leaves: what each call came back with, and the book, with its key if that is still out.
pub struct Outcome<A, R: Record, T: Tray<Slot = Slot>> {
    pub replies: Vec<A>,
    pub session: Session<R, T>,
}

// Carries out each call on the book as those before left it, each read with a row of its own that
// holds `blank` before, and gives all replies. At every moment of the run the law holds of the calls
// and answers up to then. Want of memory ends the run with nothing answered. Heap and blank are the run's and go
// along by themselves, since a session needs neither.
pub fn run<R: Record, T: Tray<Slot = Slot> + Drop>(
    heap: Global,
    number: u16,
    tray: T,
    blank: Frame<R>,
    calls: &[Call<R>],
) -> Result<Outcome<Reply<R>, R, T>, AllocError>
    ensures answers { IfOk result (λ o. map answer_of o.replies.items ≡ answers R.reads R.writes (world number new_list (T.Tray.row tray)) calls.now) }
    ensures left { IfOk result (λ o. world_of T.Tray.row o.session.book ≡ after R.writes (world number new_list (T.Tray.row tray)) calls.now) }
    ensures memory { IfOk result (λ o. T.Tray.memory o.session.book.tray ≡ T.Tray.memory tray) }
    ensures law { IfOk result (λ o. Throughout (kind_of R.Record) number (T.Tray.row tray) calls.now (map answer_of o.replies.items)) }
    ensures sound { IfOk result (λ o. Sound R.reads (world_of T.Tray.row o.session.book)) }
    ensures key { IfOk result (λ o. let s = o.session in HeldKey s.key s.book.number s.book.state.key) }
{
    let mut replies = Vec::with_capacity(heap, calls.len())?;
    let mut session = Session::new(number, tray);
    for call in calls {
        replies.push_reserved(session.carry_out(heap, blank, *call)?);
    }
    Ok(Outcome { replies, session })
}
