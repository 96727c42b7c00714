// A telegram answered, and the answer written as a reply.
ghost use Rattle.std.specs.Prelude.{◌≡◌, ◌+◌, ◌*◌, ◌≤◌, length, take};
ghost use Rattle.runs.specs.Steps.{world_of};
ghost use Rattle.requests.specs.Faults.{fault_number};
ghost use Rattle.exchange.specs.Orders.{asked_of};
ghost use Rattle.exchange.specs.Answering.{sent_told, sent_gives, sent_row, sent_state, sent_slots, Answered, said_told, frames_in, Within, said_gives, SaidWithin, said_reply, refusal_reply, reply_to, outcome_told, outcome_of, sent_reply, replied, Roomy};
ghost use Rattle.exchange.specs.Back.{SaidFits, ToldFits, ReadBack};
ghost use Rattle.std.specs.List.{AllByRecursion};
ghost use Rattle.replies.specs.Fits.{ReadingFits, FrameFits, IfWritten};
ghost use Rattle.replies.specs.Layout.{read_reply, written_length, written_over};

use crate::carrying::{carry_out, read_order};
use crate::{Said, Served};
use book::{Book, BookFault, Reading};
use records::{Frame, Record};
use replies::{write_entered, write_read, write_status};
use requests::TelegramFault;
use trays::{Slot, Tray};

// What a telegram is answered, where there is room for a reply of so many bytes and so many frames.
fn answer<R: Record, T: Tray<Slot = Slot>>(
    book: &mut Book<R, T>,
    telegram: &[u8],
    room: usize,
    into: &mut [Frame<R>],
) -> Result<Said, TelegramFault>
    ensures answer { let w = world_of T.Tray.row book.old in let asked = asked_of R.reads telegram.now room in Answered result asked (sent_told R.reads asked w (length into.old)) }
    ensures state { let w = world_of T.Tray.row book.old in book.new.state ≡ sent_state (asked_of R.reads telegram.now room) w (length into.old) }
    ensures slots { let w = world_of T.Tray.row book.old in T.Tray.row book.new.tray ≡ sent_slots R.writes (asked_of R.reads telegram.now room) w (length into.old) }
    ensures memory { T.Tray.memory book.new.tray ≡ T.Tray.memory book.old.tray }
    ensures number { book.new.number ≡ book.old.number }
    ensures row { let w = world_of T.Tray.row book.old in let old = into.old in into.new ≡ sent_row R.reads (asked_of R.reads telegram.now room) w (length old) old }
{
    let order = read_order(telegram, room)?;
    Ok(carry_out(book, order, into)?)
}

// The reply to a read that has filled this row.
fn write_gave<R: Record>(out: &mut [u8], reading: &Reading, row: &[Frame<R>]) -> Option<usize>
    requires { reading.now.count ≤ length row.now }
    ensures length { result ≡ written_length (54 + 28 * length (take reading.now.count row.now)) out.old }
    ensures fits { IfWritten result (ReadingFits reading.now × AllByRecursion (FrameFits R.writes) (take reading.now.count row.now)) }
    ensures bytes { let given = take reading.now.count row.now in out.new ≡ written_over (54 + 28 * length given) (read_reply R.NUMBER R.writes reading.now given) out.old }
{
    write_read(out, reading, &row[0..reading.count as usize])
}

// Writes what the book says as a reply, its frames from the row, and tells how long the reply is; none
// where the buffer is too short.
fn write_said<R: Record>(out: &mut [u8], said: Said, row: &[Frame<R>]) -> Option<usize>
    requires { Within said (length row.now) }
    ensures length { result ≡ written_length (length (said_reply R.NUMBER R.writes said (frames_in said row.now))) out.old }
    ensures fits { IfWritten result (SaidFits R.writes said (frames_in said row.now)) }
    ensures bytes { let reply = said_reply R.NUMBER R.writes said (frames_in said row.now) in out.new ≡ written_over (length reply) reply out.old }
{
    match said {
        Said::Done => write_status(out, 0),
        Said::Entered(entered) => write_entered(out, &entered),
        Said::Gave(reading) => write_gave(out, &reading, row),
    }
}

// What is no telegram, and what leaves no room for a reply, is not replied to.
fn write_refusal(out: &mut [u8], fault: TelegramFault) -> Option<usize>
    ensures length { result ≡ written_length (length (refusal_reply (fault_number fault))) out.old }
    ensures bytes { let reply = refusal_reply (fault_number fault) in out.new ≡ written_over (length reply) reply out.old }
{
    match fault {
        TelegramFault::NoBuffer | TelegramFault::Length | TelegramFault::Seal => Some(0),
        TelegramFault::Book(BookFault::NoRoom) => Some(0),
        fault => write_status(out, fault.number()),
    }
}

// Writes an answer or a refusal.
fn write_reply<R: Record>(
    out: &mut [u8],
    said: Result<Said, TelegramFault>,
    row: &[Frame<R>],
) -> Option<usize>
    requires { SaidWithin said (length row.now) }
    ensures length { result ≡ written_length (length (reply_to R.NUMBER R.writes (said_told said) (said_gives said row.now))) out.old }
    ensures fits { IfWritten result (ToldFits R.writes (said_told said) (said_gives said row.now)) }
    ensures bytes { let reply = reply_to R.NUMBER R.writes (said_told said) (said_gives said row.now) in out.new ≡ written_over (length reply) reply out.old }
{
    match said {
        Ok(said) => write_said(out, said, row),
        Err(fault) => write_refusal(out, fault),
    }
}

fn outcome(said: Result<Said, TelegramFault>) -> Result<(), TelegramFault>
    ensures { result ≡ outcome_of said }
{
    said.map(|_| ())
}

// Serves a telegram, of which no bytes would be too short, where the buffer has room for these frames.
pub fn serve<R: Record, T: Tray<Slot = Slot>>(
    book: &mut Book<R, T>,
    telegram: &[u8],
    room: usize,
    into: &mut [Frame<R>],
    buffer: &mut [u8],
) -> Served
    requires { Roomy room (length into.old) (length buffer.old) }
    ensures outcome { let w = world_of T.Tray.row book.old in let asked = asked_of R.reads telegram.now room in Answered result.outcome asked (outcome_told (sent_told R.reads asked w (length into.old))) }
    ensures length { let w = world_of T.Tray.row book.old in result.reply ≡ length (sent_reply R.reads R.NUMBER R.writes (asked_of R.reads telegram.now room) w (length into.old)) }
    ensures buffer { let w = world_of T.Tray.row book.old in buffer.new ≡ replied (sent_reply R.reads R.NUMBER R.writes (asked_of R.reads telegram.now room) w (length into.old)) buffer.old }
    ensures back { let w = world_of T.Tray.row book.old in let asked = asked_of R.reads telegram.now room in let frames = length into.old in ReadBack R.reads R.writes R.means R.NUMBER (sent_reply R.reads R.NUMBER R.writes asked w frames) (sent_told R.reads asked w frames) (sent_gives R.reads asked w frames) }
    ensures state { let w = world_of T.Tray.row book.old in book.new.state ≡ sent_state (asked_of R.reads telegram.now room) w (length into.old) }
    ensures slots { let w = world_of T.Tray.row book.old in T.Tray.row book.new.tray ≡ sent_slots R.writes (asked_of R.reads telegram.now room) w (length into.old) }
    ensures memory { T.Tray.memory book.new.tray ≡ T.Tray.memory book.old.tray }
    ensures number { book.new.number ≡ book.old.number }
    ensures row { let w = world_of T.Tray.row book.old in let old = into.old in into.new ≡ sent_row R.reads (asked_of R.reads telegram.now room) w (length old) old }
{
    let said = answer(book, telegram, room, into);
    match write_reply(buffer, said, into) {
        Some(reply) => Served {
            reply,
            outcome: outcome(said),
        },
        None => unreachable!(),
    }
}
