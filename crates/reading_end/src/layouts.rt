// The three layouts of a reply.
ghost use Rattle.std.specs.Prelude.{◌≡◌};
ghost use Rattle.fields.specs.Reading.{rest_of};
ghost use Rattle.reading_end.specs.Layouts.{frames_at, frames_fault, is_refusal_number, count_fits, called_of, entered_at, reading_at, reply_at, intact_of};

use crate::Reply;
use book::{Entered, Reading, Status};
use fields::{Misfit, RawFrame, Reader, Tag};
use requests::{TelegramFault, check_length, check_seal};

// As many frames as the count says, and then nothing. The walk stands here and twice with the frames' records: as
// one function over a closure, no clause would say what the closure has read.
fn frames_form(mut fields: Reader, count: u16) -> Result<(), Misfit>
    ensures { result ≡ frames_fault (frames_at count (rest_of fields.entry)) }
{
    for _ in 0..count {
        fields.read::<RawFrame>(Tag::Frame)?;
    }
    fields.end()
}

// The numbers that a refusal can have.
fn is_refusal(status: u16) -> bool
    ensures { result ≡ is_refusal_number status }
{
    matches!(status, 10..=17 | 20..=27 | 30 | 31)
}

// With "no frame given" none comes, else 1 to 144.
fn count_fits(status: Status, count: u16) -> bool
    ensures { result ≡ count_fits status count }
{
    match status {
        Status::NoFrame => count == 0,
        Status::Follow | Status::NoFollow => (1..=144).contains(&count),
    }
}

fn called_of(number: u8) -> [bool; 4]
    ensures { result ≡ called_of number }
{
    [number, number / 2, number / 4, number / 8].map(|n| n % 2 == 1)
}

// An entry's reply, after its status.
fn entered(mut fields: Reader) -> Result<Reply, Misfit>
    ensures { result ≡ entered_at (rest_of fields.entry) }
{
    let position = fields.read(Tag::TillPosition)?;
    let at = fields.offset();
    let called = fields.read(Tag::Called)?;
    if called > 15 {
        return Err(Misfit { at });
    }
    fields.end()?;
    Ok(Reply::Entered(Entered {
        position,
        called: called_of(called),
    }))
}

// A read's reply, after its status.
fn reading(status: Status, mut fields: Reader) -> Result<Reply, Misfit>
    ensures { result ≡ reading_at status (rest_of fields.entry) }
{
    let from_time = fields.read(Tag::FromTime)?;
    let from_position = fields.read(Tag::FromPosition)?;
    let till_time = fields.read(Tag::TillTime)?;
    let till_position = fields.read(Tag::TillPosition)?;
    let missed = fields.read(Tag::Missed)?;
    let version = fields.read(Tag::Version)?;
    let at = fields.offset();
    let count = fields.read(Tag::Count)?;
    if !count_fits(status, count) {
        return Err(Misfit { at });
    }
    frames_form(fields, count)?;
    Ok(Reply::Read(Reading {
        status,
        from: (from_time, from_position),
        till: (till_time, till_position),
        missed,
        version,
        count,
    }))
}

// A lone status, an entry's reply or a read's.
pub fn layout(mut fields: Reader) -> Result<Reply, Misfit>
    ensures { result ≡ reply_at (rest_of fields.entry) }
{
    let at = fields.offset();
    let number: u16 = fields.read(Tag::Status)?;
    if let Ok(status) = Status::try_from(number) {
        return reading(status, fields);
    }
    match number {
        0 if fields.is_done() => Ok(Reply::Done),
        0 => entered(fields),
        _ if is_refusal(number) => {
            fields.end()?;
            Ok(Reply::Refused(number))
        }
        _ => Err(Misfit { at }),
    }
}

// Length and seal.
pub fn intact(bytes: &[u8]) -> Result<(), TelegramFault>
    ensures { result ≡ intact_of bytes.now }
{
    check_length(bytes)?;
    check_seal(bytes)
}
