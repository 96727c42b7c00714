// Telegrams of an input served one after another.
ghost use Rattle.std.specs.Prelude.{◌≡◌, ◌≤◌, ◌++◌, length, is_ok, IfOk, if◌then◌else◌, OnOk};
ghost use Rattle.runs.specs.Steps.{world_of};
ghost use Rattle.framing.specs.Frames.{front};
ghost use Rattle.serving.specs.Sessions.{desk, is_too_long, telegrams, taken, ends, reply_of, after, written, writes_all, after_all};

use book::Book;
use framing::{Piece, cut, put};
use mixed::serve;
use records::{Exact, Frame};
use std::alloc::AllocError;
use trays::{Slot, Tray};

// How far a stretch of input was served: the bytes that are used up, and whether a length that no
// telegram has follows them, so that nothing after it can be read. Both are told of every stretch, so
// neither is an Option of the other.
#[derive(Clone, Copy)]
pub struct Stretch {
    pub used: usize,
    pub ended: bool,
}

// One telegram; its reply, where one is made (one of no bytes is none), goes behind the output.
fn serve_one<R: Exact, T: Tray<Slot = Slot>>(
    book: &mut Book<R, T>,
    telegram: &[u8],
    into: &mut [Frame<R>],
    buffer: &mut [u8],
    out: &mut Vec<u8>,
) -> Result<(), AllocError>
    ensures output { let w = world_of T.Tray.row book.old in let d = desk R.NUMBER R.reads R.writes (length into.old) (length buffer.old) in let old = out.old.items in out.new.items ≡ (if is_ok result then old ++ written (reply_of d w telegram.now) else old) }
    ensures book { let w = world_of T.Tray.row book.old in let d = desk R.NUMBER R.reads R.writes (length into.old) (length buffer.old) in world_of T.Tray.row book.new ≡ after d w telegram.now }
    ensures memory { T.Tray.memory book.new.tray ≡ T.Tray.memory book.old.tray }
{
    let length = serve(book, telegram, into, buffer).reply;
    if length == 0 {
        return Ok(());
    }
    put(out, &buffer[0..length])
}

// Serves every whole telegram of the input in order, on the book as those before left it. Want of memory
// ends it at the telegram whose reply finds no place.
pub fn serve_stretch<R: Exact, T: Tray<Slot = Slot>>(
    book: &mut Book<R, T>,
    input: &[u8],
    into: &mut [Frame<R>],
    buffer: &mut [u8],
    out: &mut Vec<u8>,
) -> Result<Stretch, AllocError>
    ensures output { let w = world_of T.Tray.row book.old in let d = desk R.NUMBER R.reads R.writes (length into.old) (length buffer.old) in OnOk result (out.new.items ≡ out.old.items ++ writes_all d w (telegrams input.now)) }
    ensures book { let w = world_of T.Tray.row book.old in let d = desk R.NUMBER R.reads R.writes (length into.old) (length buffer.old) in OnOk result (world_of T.Tray.row book.new ≡ after_all d w (telegrams input.now)) }
    ensures memory { T.Tray.memory book.new.tray ≡ T.Tray.memory book.old.tray }
    ensures used { IfOk result (λ s. s.used ≡ taken (telegrams input.now)) }
    ensures ended { IfOk result (λ s. s.ended ≡ ends input.now) }
{
    let mut rest = input;
    let ended = loop {
        match cut(rest) {
            Piece::Telegram(telegram, after) => {
                serve_one(book, telegram, into, buffer, out)?;
                rest = after;
            }
            Piece::Incomplete(_) => break false,
            Piece::TooLong => break true,
        }
    };
    Ok(Stretch {
        used: input.len() - rest.len(),
        ended,
    })
}
