// The exchange of a telegram for a reply.
ghost use Rattle.std.specs.Prelude.{◌≡◌, length, take};
ghost use Rattle.runs.specs.Steps.{world_of};
ghost use Rattle.exchange.specs.Orders.{usable, frame_room, asked_of};
ghost use Rattle.exchange.specs.Answering.{Outcome, sent_told, sent_gives, sent_row, sent_state, sent_slots, sent_reply, replied};
ghost use Rattle.exchange.specs.Back.{ReadBack};

use crate::Served;
use crate::answering::serve;
use book::Book;
use records::{Frame, Record};
use trays::{Slot, Tray};

// A row without frames leaves no room for one, just as a buffer under 82 bytes does; told as a number of
// bytes, since that is what a telegram is read against.
fn usable(row: usize, buffer: usize) -> usize
    ensures { result ≡ usable row buffer }
{
    if row == 0 { 0 } else { buffer }
}

// As many frames as the row and the buffer take: 54 bytes of a reply stand beside its frames, 28 are a frame's.
fn frame_room(row: usize, buffer: usize) -> usize
    ensures { result ≡ frame_room row buffer }
{
    row.min(buffer.saturating_sub(54) / 28)
}

// Carries out what the telegram asks of the book, and writes the reply into the buffer. A read lays its
// frames into the row first. Row and buffer are lent apart, since the caller goes on with both; each clause says
// what they allow, so that it can be read alone.
pub fn exchange<R: Record, T: Tray<Slot = Slot>>(
    book: &mut Book<R, T>,
    telegram: &[u8],
    into: &mut [Frame<R>],
    buffer: &mut [u8],
) -> Served
    ensures outcome { let w = world_of T.Tray.row book.old in let frames = length into.old in let bytes = length buffer.old in let asked = asked_of R.reads telegram.now (usable frames bytes) in Outcome R.reads result.outcome telegram.now asked w (frame_room frames bytes) }
    ensures length { let w = world_of T.Tray.row book.old in let frames = length into.old in let bytes = length buffer.old in let asked = asked_of R.reads telegram.now (usable frames bytes) in result.reply ≡ length (sent_reply R.reads R.NUMBER R.writes asked w (frame_room frames bytes)) }
    ensures buffer { let w = world_of T.Tray.row book.old in let frames = length into.old in let bytes = length buffer.old in let asked = asked_of R.reads telegram.now (usable frames bytes) in buffer.new ≡ replied (sent_reply R.reads R.NUMBER R.writes asked w (frame_room frames bytes)) buffer.old }
    ensures back { let w = world_of T.Tray.row book.old in let frames = length into.old in let bytes = length buffer.old in let asked = asked_of R.reads telegram.now (usable frames bytes) in ReadBack R.reads R.writes R.means R.NUMBER (take result.reply buffer.new) (sent_told R.reads asked w (frame_room frames bytes)) (sent_gives R.reads asked w (frame_room frames bytes)) }
    ensures state { let w = world_of T.Tray.row book.old in let frames = length into.old in let bytes = length buffer.old in let asked = asked_of R.reads telegram.now (usable frames bytes) in book.new.state ≡ sent_state asked w (frame_room frames bytes) }
    ensures key { book.new.state.key ≡ book.old.state.key }
    ensures slots { let w = world_of T.Tray.row book.old in let frames = length into.old in let bytes = length buffer.old in let asked = asked_of R.reads telegram.now (usable frames bytes) in T.Tray.row book.new.tray ≡ sent_slots R.writes asked w (frame_room frames bytes) }
    ensures memory { T.Tray.memory book.new.tray ≡ T.Tray.memory book.old.tray }
    ensures number { book.new.number ≡ book.old.number }
    ensures row { let w = world_of T.Tray.row book.old in let frames = length into.old in let bytes = length buffer.old in let asked = asked_of R.reads telegram.now (usable frames bytes) in into.new ≡ sent_row R.reads asked w (frame_room frames bytes) into.old }
{
    if telegram.is_empty() {
        return Served {
            reply: 0,
            outcome: Ok(()),
        };
    }
    let room = usable(into.len(), buffer.len());
    let frames = frame_room(into.len(), buffer.len());
    serve(book, telegram, room, &mut into[..frames], buffer)
}
