// Telegrams read into requests: one function for the fields of each method.
ghost use Rattle.std.specs.Prelude.{◌≡◌};
ghost use Rattle.fields.specs.Reading.{rest_of};
ghost use Rattle.requests.specs.Parsing.{since_at, span_at, listen_at, release_at, enter_at, alone_at, method_at, named_at, range_fault, intact_of, ranged, request_of, WorkedRequests};

use crate::{Request, TelegramFault, check_length, check_seal};
use book::BookFault;
use fields::{Reader, Tag};

fn since(mut fields: Reader) -> Result<Request, TelegramFault>
    ensures { result ≡ since_at (rest_of fields.entry) }
{
    let time = fields.read(Tag::Time)?;
    let position = fields.read(Tag::Position)?;
    let limit = fields.read(Tag::Limit)?;
    fields.end()?;
    Ok(Request::Since {
        mark: (time, position),
        limit,
    })
}

fn span(mut fields: Reader) -> Result<Request, TelegramFault>
    ensures { result ≡ span_at (rest_of fields.entry) }
{
    let first = fields.read(Tag::Time)?;
    let limit = fields.read(Tag::Limit)?;
    let last = fields.read(Tag::LastTime)?;
    fields.end()?;
    Ok(Request::Span { first, last, limit })
}

fn listen(mut fields: Reader) -> Result<Request, TelegramFault>
    ensures { result ≡ listen_at (rest_of fields.entry) }
{
    let time = fields.read(Tag::Time)?;
    let position = fields.read(Tag::Position)?;
    let fill = fields.read(Tag::FillLevel)?;
    let party = fields.read(Tag::Party)?;
    fields.end()?;
    Ok(Request::Listen {
        party,
        mark: (time, position),
        fill,
    })
}

fn release(mut fields: Reader) -> Result<Request, TelegramFault>
    ensures { result ≡ release_at (rest_of fields.entry) }
{
    let position = fields.read(Tag::Position)?;
    fields.end()?;
    Ok(Request::Release { position })
}

fn enter(mut fields: Reader) -> Result<Request, TelegramFault>
    ensures { result ≡ enter_at (rest_of fields.entry) }
{
    let time = fields.read(Tag::Time)?;
    let words = fields.read(Tag::Words)?;
    fields.end()?;
    Ok(Request::Enter { time, words })
}

fn alone(fields: Reader, request: Request) -> Result<Request, TelegramFault>
    ensures { result ≡ alone_at (rest_of fields.entry) request }
{
    fields.end()?;
    Ok(request)
}

// The methods, each with its fields in their order. Their numbers are read here and nowhere else, so an
// enum of methods would only be this list a second time.
fn method(number: u16, fields: Reader) -> Result<Request, TelegramFault>
    ensures { result ≡ method_at number (rest_of fields.entry) }
{
    match number {
        1 => since(fields),
        2 => alone(fields, Request::Oldest),
        3 => alone(fields, Request::Youngest),
        4 => span(fields),
        5 => listen(fields),
        6 => alone(fields, Request::Start),
        7 => alone(fields, Request::Stop),
        8 => release(fields),
        9 => enter(fields),
        _ => Err(TelegramFault::NoMethod),
    }
}

fn in_range(request: &Request) -> Result<(), BookFault>
    ensures { result ≡ range_fault request.now }
{
    match request {
        Request::Since { limit, .. } | Request::Span { limit, .. } if !(1..=144).contains(limit) =>
            Err(BookFault::ParamInvalid),
        Request::Span { first, last, .. } if last < first => Err(BookFault::IntervalInvalid),
        Request::Listen { party, .. } if !(1..=4).contains(party) => Err(BookFault::ParamInvalid),
        _ => Ok(()),
    }
}

// Length, buffer and seal.
fn intact(telegram: &[u8], room: usize) -> Result<(), TelegramFault>
    ensures { result ≡ intact_of telegram.now room }
{
    check_length(telegram)?;
    if room < 82 {
        return Err(TelegramFault::NoBuffer);
    }
    check_seal(telegram)
}

fn named(mut fields: Reader) -> Result<Request, TelegramFault>
    ensures { result ≡ named_at (rest_of fields.entry) }
{
    let number = fields.read(Tag::Method)?;
    method(number, fields)
}

fn read(fields: Reader) -> Result<Request, TelegramFault>
    ensures { result ≡ ranged (named_at (rest_of fields.entry)) }
{
    let request = named(fields)?;
    in_range(&request)?;
    Ok(request)
}

// The call that a telegram names, where the reply buffer has room for so many bytes. The seal is cut off by
// length, which has been looked at then; a pattern would ask for a case that never comes.
pub fn read_request(telegram: &[u8], room: usize) -> Result<Request, TelegramFault>
    ensures { result ≡ request_of telegram.now room }
{
    intact(telegram, room)?;
    read(Reader::new(&telegram[..telegram.len() - 2]))
}

// Three worked telegrams.
pub fn worked_requests()
    ensures { WorkedRequests }
{}
