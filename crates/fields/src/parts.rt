// Fields as parts of the bytes that they were read from.
ghost use Rattle.std.specs.Prelude.{◌≡◌};
ghost use Rattle.fields.specs.Layout.{tag_number, tell, parse_field, read_told};

use crate::Tag;

// A field by its tag. Each case lends the bytes of the value, a part of the telegram, with the offset of the
// field, so that a match on a field hands them out at once; a struct of tag, value and offset would be shorter.
#[derive(Clone, Copy, Debug)]
pub enum Field<'a> {
    // of a request
    Method(&'a [u8], usize),
    Time(&'a [u8], usize),
    Position(&'a [u8], usize),
    Limit(&'a [u8], usize),
    FillLevel(&'a [u8], usize),
    Party(&'a [u8], usize),
    LastTime(&'a [u8], usize),
    Words(&'a [u8], usize),
    // of a reply
    Status(&'a [u8], usize),
    FromTime(&'a [u8], usize),
    FromPosition(&'a [u8], usize),
    TillTime(&'a [u8], usize),
    TillPosition(&'a [u8], usize),
    Missed(&'a [u8], usize),
    Version(&'a [u8], usize),
    Count(&'a [u8], usize),
    Called(&'a [u8], usize),
    Frame(&'a [u8], usize),
}

impl<'a> Field<'a> {
    // The field of this tag.
    fn of(tag: Tag, value: &'a [u8], at: usize) -> Field<'a>
        ensures { tell result ≡ record { tag = tag_number tag; value = value.now; place = at } }
    {
        match tag {
            Tag::Method => Field::Method(value, at),
            Tag::Time => Field::Time(value, at),
            Tag::Position => Field::Position(value, at),
            Tag::Limit => Field::Limit(value, at),
            Tag::FillLevel => Field::FillLevel(value, at),
            Tag::Party => Field::Party(value, at),
            Tag::LastTime => Field::LastTime(value, at),
            Tag::Words => Field::Words(value, at),
            Tag::Status => Field::Status(value, at),
            Tag::FromTime => Field::FromTime(value, at),
            Tag::FromPosition => Field::FromPosition(value, at),
            Tag::TillTime => Field::TillTime(value, at),
            Tag::TillPosition => Field::TillPosition(value, at),
            Tag::Missed => Field::Missed(value, at),
            Tag::Version => Field::Version(value, at),
            Tag::Count => Field::Count(value, at),
            Tag::Called => Field::Called(value, at),
            Tag::Frame => Field::Frame(value, at),
        }
    }

    pub(crate) fn tag(self) -> Tag
        ensures { tag_number result ≡ (tell self.entry).tag }
    {
        match self {
            Field::Method(_, _) => Tag::Method,
            Field::Time(_, _) => Tag::Time,
            Field::Position(_, _) => Tag::Position,
            Field::Limit(_, _) => Tag::Limit,
            Field::FillLevel(_, _) => Tag::FillLevel,
            Field::Party(_, _) => Tag::Party,
            Field::LastTime(_, _) => Tag::LastTime,
            Field::Words(_, _) => Tag::Words,
            Field::Status(_, _) => Tag::Status,
            Field::FromTime(_, _) => Tag::FromTime,
            Field::FromPosition(_, _) => Tag::FromPosition,
            Field::TillTime(_, _) => Tag::TillTime,
            Field::TillPosition(_, _) => Tag::TillPosition,
            Field::Missed(_, _) => Tag::Missed,
            Field::Version(_, _) => Tag::Version,
            Field::Count(_, _) => Tag::Count,
            Field::Called(_, _) => Tag::Called,
            Field::Frame(_, _) => Tag::Frame,
        }
    }

    pub(crate) fn value(self) -> &'a [u8]
        ensures { result.now ≡ (tell self.entry).value }
    {
        match self {
            Field::Method(value, _)
            | Field::Time(value, _)
            | Field::Position(value, _)
            | Field::Limit(value, _)
            | Field::FillLevel(value, _)
            | Field::Party(value, _)
            | Field::LastTime(value, _)
            | Field::Words(value, _)
            | Field::Status(value, _)
            | Field::FromTime(value, _)
            | Field::FromPosition(value, _)
            | Field::TillTime(value, _)
            | Field::TillPosition(value, _)
            | Field::Missed(value, _)
            | Field::Version(value, _)
            | Field::Count(value, _)
            | Field::Called(value, _)
            | Field::Frame(value, _) => value,
        }
    }
}

// The offset of the first field that does not fit.
#[derive(Clone, Copy, PartialEq, Eq, Debug)]
pub struct Misfit {
    pub at: usize,
}

// The first field of `bytes`, which lie at offset `at` of the telegram, and the bytes after it.
pub fn next_field<'a>(bytes: &'a [u8], at: usize) -> Result<(Field<'a>, &'a [u8]), Misfit>
    ensures { read_told result ≡ parse_field bytes.now at }
{
    let [tag, hi, lo, rest @ ..] = bytes else {
        return Err(Misfit { at });
    };
    let length = usize::from(u16::from_be_bytes([*hi, *lo]));
    if length > rest.len() {
        return Err(Misfit { at });
    }
    let (value, after) = rest.split_at(length);
    match Tag::try_from(*tag) {
        Ok(tag) if tag.length() == length => Ok((Field::of(tag, value, at), after)),
        _ => Err(Misfit { at }),
    }
}
