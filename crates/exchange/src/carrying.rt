// A telegram carried out on a book.
ghost use Rattle.std.specs.Prelude.{◌≡◌, length};
ghost use Rattle.book.specs.Told.{told, decided, left};
ghost use Rattle.book.specs.Reads.{laid};
ghost use Rattle.runs.specs.Steps.{world_of};
ghost use Rattle.exchange.specs.Orders.{order_of, asked_of, own_key_checks, own_key_state, order_checks, order_says, order_gives, order_state, order_slots};

use crate::{Order, Said};
use book::{Book, BookFault};
use records::{Frame, Record};
use requests::{Request, TelegramFault, read_request};
use runs::{Keyed, Read, ask, show};
use trays::{Slot, Tray};

impl<R: Record> TryFrom<Request> for Order<R> {
    type Error = BookFault;

    ghost try_from_gives = { λ request order. order ≡ order_of R.reads request };

    fn try_from(request: Request) -> Result<Order<R>, BookFault> {
        Ok(match request {
            Request::Since { mark, limit } => Order::Ask(Read::Since { mark, limit }),
            Request::Oldest => Order::Ask(Read::Oldest),
            Request::Youngest => Order::Ask(Read::Youngest),
            Request::Span { first, last, limit } => Order::Ask(Read::Span { first, last, limit }),
            Request::Listen { party, mark, fill } => Order::Listen { party, mark, fill },
            Request::Start => Order::Show(Keyed::Start),
            Request::Stop => Order::Show(Keyed::Stop),
            Request::Release { position } => Order::Show(Keyed::Release(position)),
            Request::Enter { time, words } => Order::Enter {
                time,
                record: R::read(words)?,
            },
        })
    }
}

pub fn read_order<R: Record>(telegram: &[u8], room: usize) -> Result<Order<R>, TelegramFault>
    ensures { result ≡ asked_of R.reads telegram.now room }
{
    Ok(Order::try_from(read_request(telegram, room)?)?)
}

// Takes the book's own key, shows it, and hands it back whether the call is refused or not. What `runs` has
// for a key of another book takes it there, so the two share nothing but `show`.
fn show_own<R: Record, T: Tray<Slot = Slot>>(
    book: &mut Book<R, T>,
    call: Keyed,
) -> Result<Said, BookFault>
    ensures answer { let b = book.old in told result ≡ decided (own_key_checks call b.state b.number) Said.Done }
    ensures state { let b = book.old in book.new.state ≡ left (own_key_checks call b.state b.number) (own_key_state call b.state) b.state }
    ensures tray { book.new.tray ≡ book.old.tray }
    ensures number { book.new.number ≡ book.old.number }
{
    let key = book.take()?;
    let answer = show(book, &key, call);
    match book.hand_back(key) {
        Ok(()) => answer.map(|()| Said::Done),
        Err(_) => unreachable!(),
    }
}

// An order on the book as it stands, told by its case as in the definitions; reads go into the caller's row.
pub fn carry_out<R: Record, T: Tray<Slot = Slot>>(
    book: &mut Book<R, T>,
    order: Order<R>,
    into: &mut [Frame<R>],
) -> Result<Said, BookFault>
    ensures answer { let w = world_of T.Tray.row book.old in let room = length into.old in told result ≡ decided (order_checks order w room) (order_says R.reads order w room) }
    ensures state { let w = world_of T.Tray.row book.old in book.new.state ≡ left (order_checks order w (length into.old)) (order_state order w) w.state }
    ensures slots { let w = world_of T.Tray.row book.old in T.Tray.row book.new.tray ≡ left (order_checks order w (length into.old)) (order_slots R.writes order w) w.row }
    ensures memory { T.Tray.memory book.new.tray ≡ T.Tray.memory book.old.tray }
    ensures number { book.new.number ≡ book.old.number }
    ensures row { let w = world_of T.Tray.row book.old in let old = into.old in into.new ≡ left (order_checks order w (length old)) (laid (order_gives R.reads order w (length old)) old) old }
{
    match order {
        Order::Enter { time, record } => Ok(Said::Entered(book.enter(time, record)?)),
        Order::Listen { party, mark, fill } => book.listen(party, mark, fill).map(|()| Said::Done),
        Order::Show(call) => show_own(book, call),
        Order::Ask(read) => Ok(Said::Gave(ask(book, read, into)?)),
    }
}
