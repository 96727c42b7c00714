// The frames of a read's reply, looked into and stored. A reader and the count of the frames that are left in it go
// along by themselves, since each function takes its own copy of the reader.
ghost use Rattle.std.specs.Prelude.{◌≡◌, ◌≤◌, length};
ghost use Rattle.fields.specs.Reading.{rest_of};
ghost use Rattle.reading_end.specs.Frames.{record_of, frame_step, next_frame_of, records_at, fault_of, store_at, fits_row, stored_over};

use book::BookFault;
use fields::{RawFrame, Reader, Tag};
use records::{Frame, Record};
use requests::TelegramFault;

// A frame of this kind, with lawful words.
fn record<R: Record>(raw: RawFrame) -> Result<Frame<R>, TelegramFault>
    ensures { result ≡ record_of R.NUMBER R.reads raw }
{
    if raw.kind != R::NUMBER {
        return Err(TelegramFault::OtherKind);
    }
    let body = R::read(raw.words).map_err(BookFault::Record)?;
    Ok(Frame {
        time: raw.time,
        position: raw.position,
        body,
    })
}

fn next_frame<R: Record>(fields: &mut Reader) -> Result<Frame<R>, TelegramFault>
    ensures { frame_step result (rest_of fields.new) ≡ next_frame_of R.NUMBER R.reads (rest_of fields.old) }
{
    record(fields.read(Tag::Frame)?)
}

// The first fault of the frames. It is looked for before `store`, which walks them again and writes.
fn check<R: Record>(mut fields: Reader, count: u16) -> Result<(), TelegramFault>
    ensures { result ≡ fault_of (records_at R.NUMBER R.reads count (rest_of fields.entry)) }
{
    for _ in 0..count {
        next_frame::<R>(&mut fields)?;
    }
    Ok(())
}

fn store<R: Record>(mut fields: Reader, count: u16, row: &mut [Frame<R>])
    requires { count ≤ length row.old }
    ensures { row.new ≡ store_at R.NUMBER R.reads count (rest_of fields.entry) row.old }
{
    for slot in &mut row[..count as usize] {
        match next_frame(&mut fields) {
            Ok(frame) => *slot = frame,
            Err(_) => return,
        }
    }
}

// Everything is checked before the first frame is stored.
pub fn read_frames<R: Record>(
    fields: Reader,
    count: u16,
    row: &mut [Frame<R>],
) -> Result<(), TelegramFault>
    ensures answer { result ≡ fault_of (fits_row count (length row.old) (records_at R.NUMBER R.reads count (rest_of fields.entry))) }
    ensures row { row.new ≡ stored_over (fits_row count (length row.old) (records_at R.NUMBER R.reads count (rest_of fields.entry))) row.old }
{
    check::<R>(fields, count)?;
    if row.len() < count as usize {
        return Err(TelegramFault::NoBuffer);
    }
    store(fields, count, row);
    Ok(())
}
