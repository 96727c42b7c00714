// Keys that are shown or offered, and keys of other books. A key of another number, or of a book's own
// number while its own key is in, is had honestly: from another new book.
ghost use Rattle.std.specs.Prelude.{◌≡◌, IfSome};
ghost use Rattle.book.specs.Told.{told, decided, left};
ghost use Rattle.book.specs.State.{with_key};
ghost use Rattle.book.specs.Calls.{key_checks};
ghost use Rattle.runs.specs.Steps.{keyed_checks, keyed_state};

use crate::asked::Keyed;
use book::{Book, BookFault, KeyPlace, ServiceKey, StillHeld};
use records::Record;
use trays::{OpenTray, Slot, Tray};

// A call that shows this key, told by its case as in the definitions.
pub fn show<R: Record, T: Tray<Slot = Slot>>(
    book: &mut Book<R, T>,
    key: &ServiceKey,
    call: Keyed,
) -> Result<(), BookFault>
    ensures answer { let b = book.old in told result ≡ decided (keyed_checks call b.state b.number key.now.book) tt }
    ensures state { let b = book.old in book.new.state ≡ left (keyed_checks call b.state b.number key.now.book) (keyed_state call b.state) b.state }
    ensures tray { book.new.tray ≡ book.old.tray }
    ensures number { book.new.number ≡ book.old.number }
{
    match call {
        Keyed::Start => book.start(key),
        Keyed::Stop => book.stop(key),
        Keyed::SetMode(mode) => book.set_mode(key, mode),
        Keyed::Release(position) => book.release(key, position),
    }
}

// Offers a key, which is left over if the book refuses it.
pub(crate) fn offer<R: Record, T: Tray<Slot = Slot>>(
    book: &mut Book<R, T>,
    key: ServiceKey,
) -> (Result<(), BookFault>, Option<ServiceKey>)
    ensures answer { let b = book.old in told result.0 ≡ decided (key_checks b.state b.number key.book) tt }
    ensures key { result.1 ≡ left (key_checks book.old.state book.old.number key.book) None (Some key) }
    ensures state { let b = book.old in book.new.state ≡ left (key_checks b.state b.number key.book) (with_key KeyPlace.In b.state) b.state }
    ensures tray { book.new.tray ≡ book.old.tray }
    ensures number { book.new.number ≡ book.old.number }
{
    match book.hand_back(key) {
        Ok(()) => (Ok(()), None),
        Err(StillHeld { fault, key }) => (Err(fault), Some(key)),
    }
}

// A call on a book with a key of this number that another book gave; what is left of the key goes back there.
pub(crate) fn with_other_key<R: Record, T: Tray<Slot = Slot>, F>(
    book: &mut Book<R, T>,
    number: u16,
    call: F,
) -> Result<(), BookFault>
where
    F: FnOnce(&mut Book<R, T>, ServiceKey) -> (Result<(), BookFault>, Option<ServiceKey>),
    requires called { F.IsAlwaysCallable call }
    requires back { (p p' given r : _) → given.book ≡ number → F.post call p given r p' → IfSome r.1 (λ key. key.book ≡ number) }
    ensures { (p p' given key : _) × F.post call p given (result, key) p' × (p.now ≡ book.old) × (given.book ≡ number) × (p'.now ≡ book.new) }
{
    let mut none: [Slot; 0] = [];
    let mut other: Book<R, OpenTray<Slot>> = Book::new(number, OpenTray::new(&mut none));
    match other.take() {
        Ok(key) => {
            let (answer, key) = call(book, key);
            if let Some(key) = key {
                match other.hand_back(key) {
                    Ok(()) => {}
                    Err(_) => unreachable!(),
                }
            }
            answer
        }
        Err(_) => unreachable!(),
    }
}
