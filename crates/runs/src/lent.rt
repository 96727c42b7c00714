// One call on a book that is lent, with the book's key in hand while that is out.
ghost use Rattle.std.specs.Prelude.{◌≡◌, IfOk};
ghost use Rattle.book.specs.State.{with_key};
ghost use Rattle.book.specs.Told.{told, decided, left};
ghost use Rattle.book.specs.Calls.{take_checks, key_checks};
ghost use Rattle.runs.specs.Answers.{answer_of};
ghost use Rattle.runs.specs.Steps.{HeldKey, keyed_checks, keyed_state, world_of, step_answer, step_state, step_row};

use crate::asked::{Keyed, Read};
use crate::keys::{offer, show, with_other_key};
use crate::reading::read_own;
use crate::{Accepted, Call, Reply};
use book::{Book, BookFault, KeyPlace, ServiceKey};
use records::{Frame, Record};
use std::alloc::{AllocError, Global};
use trays::{Slot, Tray};

// Shows a key of this number: the one in hand if it is that, else another book's.
fn shown<R: Record, T: Tray<Slot = Slot>>(
    book: &mut Book<R, T>,
    held: &Option<ServiceKey>,
    number: u16,
    call: Keyed,
) -> Result<(), BookFault>
    ensures answer { let b = book.old in told result ≡ decided (keyed_checks call b.state b.number number) tt }
    ensures state { let b = book.old in book.new.state ≡ left (keyed_checks call b.state b.number number) (keyed_state call b.state) b.state }
    ensures tray { book.new.tray ≡ book.old.tray }
    ensures number { book.new.number ≡ book.old.number }
{
    match held {
        Some(key) if key.book() == number => show(book, key, call),
        _ => with_other_key(book, number, |book, key| {
            (show(book, &key, call), Some(key))
        }),
    }
}

// Hands back a key of this number: the one in hand if it is that, else another book's.
fn handed<R: Record, T: Tray<Slot = Slot>>(
    book: &mut Book<R, T>,
    held: Option<ServiceKey>,
    number: u16,
) -> (Result<(), BookFault>, Option<ServiceKey>)
    ensures answer { let b = book.old in told result.0 ≡ decided (key_checks b.state b.number number) tt }
    ensures held { HeldKey held book.old.number book.old.state.key → HeldKey result.1 book.new.number book.new.state.key }
    ensures state { let b = book.old in book.new.state ≡ left (key_checks b.state b.number number) (with_key KeyPlace.In b.state) b.state }
    ensures tray { book.new.tray ≡ book.old.tray }
    ensures number { book.new.number ≡ book.old.number }
{
    match held {
        Some(key) => {
            if key.book() == number {
                offer(book, key)
            } else {
                (with_other_key(book, number, offer), Some(key))
            }
        }
        None => (with_other_key(book, number, offer), None),
    }
}

// Takes the book's own key. A hand holds one key: where another one is in it, the book's goes back at once.
fn taken<R: Record, T: Tray<Slot = Slot>>(
    book: &mut Book<R, T>,
    held: Option<ServiceKey>,
) -> (Result<u16, BookFault>, Option<ServiceKey>)
    ensures answer { let b = book.old in HeldKey held b.number b.state.key → told result.0 ≡ decided (take_checks b.state) b.number }
    ensures held { HeldKey held book.old.number book.old.state.key → HeldKey result.1 book.new.number book.new.state.key }
    ensures state { let b = book.old in HeldKey held b.number b.state.key → book.new.state ≡ left (take_checks b.state) (with_key KeyPlace.Out b.state) b.state }
    ensures tray { book.new.tray ≡ book.old.tray }
    ensures number { book.new.number ≡ book.old.number }
{
    match book.take() {
        Ok(key) => match held {
            None => (Ok(key.book()), Some(key)),
            Some(other) => match book.hand_back(key) {
                Ok(()) => (Err(BookFault::KeyOut), Some(other)),
                Err(_) => unreachable!(),
            },
        },
        Err(fault) => (Err(fault), held),
    }
}

// One call, on the book as it stands, for whoever has the book only lent. Where the key in hand is the book's
// exactly while it is out, all is as the step of the call has it. Calls are data, told by their cases in the law.
pub fn carry_out<R: Record, T: Tray<Slot = Slot>>(
    heap: Global,
    book: &mut Book<R, T>,
    held: Option<ServiceKey>,
    blank: Frame<R>,
    call: Call<R>,
) -> (Result<Reply<R>, AllocError>, Option<ServiceKey>)
    ensures answer { let b = book.old in HeldKey held b.number b.state.key → IfOk result.0 (λ reply. answer_of reply ≡ step_answer R.reads call (world_of T.Tray.row b)) }
    ensures held { HeldKey held book.old.number book.old.state.key → HeldKey result.1 book.new.number book.new.state.key }
    ensures state { let b = book.old in HeldKey held b.number b.state.key → book.new.state ≡ step_state call (world_of T.Tray.row b) }
    ensures slots { T.Tray.row book.new.tray ≡ step_row R.writes call (world_of T.Tray.row book.old) }
    ensures memory { T.Tray.memory book.new.tray ≡ T.Tray.memory book.old.tray }
    ensures number { book.new.number ≡ book.old.number }
{
    match call {
        Call::Enter { time, record } => {
            let answer = book.enter(time, record);
            (Ok(answer.map(|entered| Accepted::Entered(entered))), held)
        }
        Call::Start { key } => {
            let answer = shown(book, &held, key, Keyed::Start);
            (Ok(answer.map(|()| Accepted::Done)), held)
        }
        Call::Stop { key } => {
            let answer = shown(book, &held, key, Keyed::Stop);
            (Ok(answer.map(|()| Accepted::Done)), held)
        }
        Call::SetMode { key, mode } => {
            let answer = shown(book, &held, key, Keyed::SetMode(mode));
            (Ok(answer.map(|()| Accepted::Done)), held)
        }
        Call::Release { key, position } => {
            let answer = shown(book, &held, key, Keyed::Release(position));
            (Ok(answer.map(|()| Accepted::Done)), held)
        }
        Call::Listen { party, mark, fill } => {
            let answer = book.listen(party, mark, fill);
            (Ok(answer.map(|()| Accepted::Done)), held)
        }
        Call::Since { mark, limit, room } => (
            read_own(heap, book, blank, Read::Since { mark, limit }, room),
            held,
        ),
        Call::Oldest { room } => (read_own(heap, book, blank, Read::Oldest, room), held),
        Call::Youngest { room } => (read_own(heap, book, blank, Read::Youngest, room), held),
        Call::Span {
            first,
            last,
            limit,
            room,
        } => (
            read_own(heap, book, blank, Read::Span { first, last, limit }, room),
            held,
        ),
        Call::Take => {
            let (answer, held) = taken(book, held);
            (Ok(answer.map(|number| Accepted::Key(number))), held)
        }
        Call::HandBack { key } => {
            let (answer, held) = handed(book, held, key);
            (Ok(answer.map(|()| Accepted::Done)), held)
        }
    }
}
