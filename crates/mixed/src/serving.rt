// A telegram to a book in use, as a station serves it.
ghost use Rattle.std.specs.Prelude.{◌≡◌, length, take};
ghost use Rattle.runs.specs.Steps.{world_of};
ghost use Rattle.exchange.specs.Orders.{usable, frame_room, asked_of};
ghost use Rattle.exchange.specs.Answering.{Outcome, sent_told, sent_gives, sent_row, sent_state, sent_slots, sent_reply, replied};
ghost use Rattle.exchange.specs.Back.{ReadBack};
ghost use Rattle.mixed.specs.Kinds.{numbered};
ghost use Rattle.mixed.specs.Throughout.{Goes_on};

use book::Book;
use exchange::{Served, exchange};
use records::{Exact, Frame};
use trays::{Slot, Tray};

// The exchange of a telegram for a reply. Whatever calls and telegrams have led to the book as it is,
// the law holds of them with this telegram added. The other clauses are those of the exchange.
pub fn serve<R: Exact, T: Tray<Slot = Slot>>(
    book: &mut Book<R, T>,
    telegram: &[u8],
    into: &mut [Frame<R>],
    buffer: &mut [u8],
) -> Served
    ensures outcome { let w = world_of T.Tray.row book.old in let frames = length into.old in let bytes = length buffer.old in let asked = asked_of R.reads telegram.now (usable frames bytes) in Outcome R.reads result.outcome telegram.now asked w (frame_room frames bytes) }
    ensures length { let w = world_of T.Tray.row book.old in let frames = length into.old in let bytes = length buffer.old in let asked = asked_of R.reads telegram.now (usable frames bytes) in result.reply ≡ length (sent_reply R.reads R.NUMBER R.writes asked w (frame_room frames bytes)) }
    ensures buffer { let w = world_of T.Tray.row book.old in let frames = length into.old in let bytes = length buffer.old in let asked = asked_of R.reads telegram.now (usable frames bytes) in buffer.new ≡ replied (sent_reply R.reads R.NUMBER R.writes asked w (frame_room frames bytes)) buffer.old }
    ensures back { let w = world_of T.Tray.row book.old in let frames = length into.old in let bytes = length buffer.old in let asked = asked_of R.reads telegram.now (usable frames bytes) in ReadBack R.reads R.writes R.means R.NUMBER (take result.reply buffer.new) (sent_told R.reads asked w (frame_room frames bytes)) (sent_gives R.reads asked w (frame_room frames bytes)) }
    ensures state { let w = world_of T.Tray.row book.old in let frames = length into.old in let bytes = length buffer.old in let asked = asked_of R.reads telegram.now (usable frames bytes) in book.new.state ≡ sent_state asked w (frame_room frames bytes) }
    ensures key { book.new.state.key ≡ book.old.state.key }
    ensures slots { let w = world_of T.Tray.row book.old in let frames = length into.old in let bytes = length buffer.old in let asked = asked_of R.reads telegram.now (usable frames bytes) in T.Tray.row book.new.tray ≡ sent_slots R.writes asked w (frame_room frames bytes) }
    ensures memory { T.Tray.memory book.new.tray ≡ T.Tray.memory book.old.tray }
    ensures number { book.new.number ≡ book.old.number }
    ensures row { let w = world_of T.Tray.row book.old in let frames = length into.old in let bytes = length buffer.old in let asked = asked_of R.reads telegram.now (usable frames bytes) in into.new ≡ sent_row R.reads asked w (frame_room frames bytes) into.old }
    ensures law { Goes_on (numbered R.Record) (world_of T.Tray.row book.old) (world_of T.Tray.row book.new) telegram.now (length into.old) (length buffer.old) (take result.reply buffer.new) }
{
    exchange(book, telegram, into, buffer)
}
