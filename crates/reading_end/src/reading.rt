// The reading end.
ghost use Rattle.std.specs.Prelude.{◌≡◌, length};
ghost use Rattle.fields.specs.Reading.{rest_of};
ghost use Rattle.reading_end.specs.Frames.{fault_of, stored_over};
ghost use Rattle.reading_end.specs.Replies.{frames_of, told_at, reply_of, answer_of, row_after};

use crate::Reply;
use crate::frames::read_frames;
use crate::layouts::{intact, layout};
use fields::Reader;
use records::{Frame, Record};
use requests::TelegramFault;

// The frames of a read's reply into the row; other replies have none.
fn frames<R: Record>(
    reply: &Reply,
    mut fields: Reader,
    row: &mut [Frame<R>],
) -> Result<(), TelegramFault>
    ensures answer { result ≡ fault_of (frames_of R.NUMBER R.reads (length row.old) reply.now (rest_of fields.entry)) }
    ensures row { row.new ≡ stored_over (frames_of R.NUMBER R.reads (length row.old) reply.now (rest_of fields.entry)) row.old }
{
    match reply {
        Reply::Read(reading) => {
            // status to count are 52 bytes
            fields.skip(52);
            read_frames(fields, reading.count, row)
        }
        _ => Ok(()),
    }
}

fn read<R: Record>(fields: Reader, row: &mut [Frame<R>]) -> Result<Reply, TelegramFault>
    ensures answer { result ≡ answer_of (told_at R.NUMBER R.reads (length row.old) (rest_of fields.entry)) }
    ensures row { row.new ≡ row_after (told_at R.NUMBER R.reads (length row.old) (rest_of fields.entry)) row.old }
{
    let reply = layout(fields)?;
    frames(&reply, fields, row)?;
    Ok(reply)
}

// What a reply says, its frames in the row (the seal is cut off as from a request). A refusal leaves the row, and frames past those of the
// reply stay.
pub fn read_reply<R: Record>(bytes: &[u8], row: &mut [Frame<R>]) -> Result<Reply, TelegramFault>
    ensures answer { result ≡ answer_of (reply_of R.NUMBER R.reads bytes.now (length row.old)) }
    ensures row { row.new ≡ row_after (reply_of R.NUMBER R.reads bytes.now (length row.old)) row.old }
{
    intact(bytes)?;
    read(Reader::new(&bytes[..bytes.len() - 2]), row)
}
