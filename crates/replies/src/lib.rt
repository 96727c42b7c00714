// Replies, written into a caller's buffer: fields and then their seal. A buffer that is too short is
// left as it is; bytes after a reply stay. Where a reply is written, its numbers fit the bytes that
// carry them, so nothing of them is cut off.
#![tactic(auto)]

ghost use Rattle.std.specs.Prelude.{◌≡◌, ◌+◌, ◌*◌, length};
ghost use Rattle.std.specs.List.{AllByRecursion};
ghost use Rattle.replies.specs.Fits.{ReadingFits, FrameFits, EnteredFits, IfWritten};
ghost use Rattle.replies.specs.Layout.{called_number, status_reply, entered_reply, read_reply, written_length, written_over, WorkedStatus};

mod writer;

use book::{Entered, Reading};
use fields::Tag;
use records::{Frame, Record};
use writer::Writer;

// The lengths of replies are numbers here as they are in the contracts.

// A reply of a lone status: how long it is, or none where the buffer is too short. A status is 0 or the number of
// any layer's refusal, and so a number.
pub fn write_status(out: &mut [u8], status: u16) -> Option<usize>
    ensures length { result ≡ written_length 7 out.old }
    ensures bytes { out.new ≡ written_over 7 (status_reply status) out.old }
{
    if out.len() < 7 {
        return None;
    }
    let mut reply = Writer { out, at: 0 };
    reply.field(Tag::Status, &status.to_be_bytes());
    reply.close();
    Some(reply.at)
}

// The reply to an accepted entry.
pub fn write_entered(out: &mut [u8], entered: &Entered) -> Option<usize>
    ensures length { result ≡ written_length 18 out.old }
    ensures bytes { out.new ≡ written_over 18 (entered_reply entered.now) out.old }
    ensures fits { IfWritten result (EnteredFits entered.now) }
{
    if out.len() < 18 {
        return None;
    }
    let mut reply = Writer { out, at: 0 };
    reply.field(Tag::Status, &0u16.to_be_bytes());
    reply.field(Tag::TillPosition, &entered.position.to_be_bytes());
    reply.field(Tag::Called, &[called_byte(entered.called)]);
    reply.close();
    Some(reply.at)
}

fn called_byte(called: [bool; 4]) -> u8
    ensures value { result ≡ called_number called }
    ensures parties { length called ≡ 4 }
{
    let [first, second, third, fourth] = called;
    u8::from(first) + 2 * u8::from(second) + 4 * u8::from(third) + 8 * u8::from(fourth)
}

// The reply to an accepted read, with these frames.
pub fn write_read<R: Record>(
    out: &mut [u8],
    reading: &Reading,
    frames: &[Frame<R>],
) -> Option<usize>
    ensures length { result ≡ written_length (54 + 28 * length frames.now) out.old }
    ensures bytes { out.new ≡ written_over (54 + 28 * length frames.now) (read_reply R.NUMBER R.writes reading.now frames.now) out.old }
    ensures fits { IfWritten result (ReadingFits reading.now × AllByRecursion (FrameFits R.writes) frames.now) }
{
    if out.len() < 54 || (out.len() - 54) / 28 < frames.len() {
        return None;
    }
    let mut reply = Writer { out, at: 0 };
    reply.head(reading);
    reply.frames(frames);
    reply.close();
    Some(reply.at)
}

// The reply to a refusal with 20.
pub fn worked_status()
    ensures { WorkedStatus }
{}
