// Telegrams in a run, each with a row and a buffer of its own.
ghost use Rattle.std.specs.Prelude.{◌≡◌, IfOk, OnOk};
ghost use Rattle.runs.specs.Steps.{world_of};
ghost use Rattle.reading_end.specs.Replies.{reply_of};
ghost use Rattle.mixed.specs.Kinds.{numbered};
ghost use Rattle.mixed.specs.Uses.{Use.sent, seen_reply, taken_answer, use_seen, use_after, Settled};

use book::Book;
use exchange::exchange;
use records::{Frame, Record};
use std::alloc::{AllocError, Global};
use trays::{Slot, Tray};

// The bytes of the reply to a telegram, none where none is made.
pub(crate) fn send<R: Record, T: Tray<Slot = Slot>>(
    heap: Global,
    book: &mut Book<R, T>,
    blank: Frame<R>,
    bytes: &[u8],
    frames: u16,
    buffer: u16,
) -> Result<Vec<u8>, AllocError>
    requires { Settled (numbered R.Record) (world_of T.Tray.row book.old) }
    ensures seen { IfOk result (λ reply. seen_reply reply.items (taken_answer (reply_of R.NUMBER R.reads reply.items 144)) ≡ use_seen (numbered R.Record) (sent bytes.now frames buffer) (world_of T.Tray.row book.old)) }
    ensures left { OnOk result (world_of T.Tray.row book.new ≡ use_after (numbered R.Record) (sent bytes.now frames buffer) (world_of T.Tray.row book.old)) }
    ensures key { book.new.state.key ≡ book.old.state.key }
    ensures memory { T.Tray.memory book.new.tray ≡ T.Tray.memory book.old.tray }
    ensures number { book.new.number ≡ book.old.number }
{
    let mut row = vec![in heap; blank; frames as usize]?;
    let mut reply = vec![in heap; 0u8; buffer as usize]?;
    let served = exchange(book, bytes, &mut row, &mut reply);
    reply.truncate(served.reply);
    Ok(reply)
}
