// Any list of calls and telegrams on a new book.
ghost use Rattle.std.specs.Prelude.{◌≡◌, ℕ, List, map, length, IfOk, OnOk};
ghost use Rattle.book.specs.State.{new_list};
ghost use Rattle.runs.specs.Sound.{Sound};
ghost use Rattle.runs.specs.Steps.{HeldKey, world, world_of};
ghost use Rattle.mixed.specs.Kinds.{numbered};
ghost use Rattle.mixed.specs.Throughout.{left_by, Throughout};
ghost use Rattle.mixed.specs.Uses.{use_of, seen_of, use_seen, use_after, all_seen, Settled};

use crate::sending::send;
use crate::{Answer, Turn};
use records::{Exact, Frame, Record};
use runs::{Outcome, Session};
use std::alloc::{AllocError, Global};
use trays::{Slot, Tray};

// One turn, on the book as it stands.
fn take_turn<R: Record, T: Tray<Slot = Slot>>(
    heap: Global,
    session: &mut Session<R, T>,
    blank: Frame<R>,
    turn: &Turn<R>,
) -> Result<Answer<R>, AllocError>
    requires { Settled (numbered R.Record) (world_of T.Tray.row session.old.book) }
    ensures seen { IfOk result (λ answer. seen_of (numbered R.Record) answer ≡ use_seen (numbered R.Record) (use_of turn.now) (world_of T.Tray.row session.old.book)) }
    ensures left { OnOk result (world_of T.Tray.row session.new.book ≡ use_after (numbered R.Record) (use_of turn.now) (world_of T.Tray.row session.old.book)) }
    ensures memory { T.Tray.memory session.new.book.tray ≡ T.Tray.memory session.old.book.tray }
{
    Ok(match turn {
        Turn::Call(call) => Answer::Told(session.carry_out(heap, blank, *call)?),
        Turn::Telegram {
            bytes,
            frames,
            buffer,
        } => Answer::Replied(send(
            heap,
            &mut session.book,
            blank,
            bytes.as_slice(),
            *frames,
            *buffer,
        )?),
    })
}

// Carries out each turn on the book as those before left it, each with a row and a buffer of its own,
// and gives all that comes back; a row holds `blank` before. At every moment of the run the law holds
// of the calls and answers up to then. Want of memory ends the run with nothing answered.
// `runs::run` has the same few lines: shared, they would take the step as a closure, and the shared
// function would require that it may be called.
pub fn run<R: Exact, T: Tray<Slot = Slot> + Drop>(
    heap: Global,
    number: u16,
    tray: T,
    blank: Frame<R>,
    turns: &[Turn<R>],
) -> Result<Outcome<Answer<R>, R, T>, AllocError>
    ensures answers { IfOk result (λ o. map (seen_of (numbered R.Record)) o.replies.items ≡ all_seen (numbered R.Record) (world number new_list (T.Tray.row tray)) (map use_of turns.now)) }
    ensures left { IfOk result (λ o. world_of T.Tray.row o.session.book ≡ left_by (numbered R.Record) number (T.Tray.row tray) (map use_of turns.now)) }
    ensures memory { IfOk result (λ o. T.Tray.memory o.session.book.tray ≡ T.Tray.memory tray) }
    ensures law { IfOk result (λ o. Throughout (numbered R.Record) number (T.Tray.row tray) (map use_of turns.now) (map (seen_of (numbered R.Record)) o.replies.items)) }
    ensures sound { IfOk result (λ o. Sound R.reads (world_of T.Tray.row o.session.book)) }
    ensures key { IfOk result (λ o. let s = o.session in HeldKey s.key s.book.number s.book.state.key) }
{
    let mut replies = Vec::with_capacity(heap, turns.len())?;
    let mut session = Session::new(number, tray);
    for turn in turns {
        replies.push_reserved(take_turn(heap, &mut session, blank, turn)?);
    }
    Ok(Outcome { replies, session })
}
