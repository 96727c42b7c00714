// The first line: which book it is, and over which tray.
ghost use Rattle.std.specs.Prelude.{IfOk};
ghost use Rattle.wording.specs.Sizes.{Fits, FitsIfAny};

use crate::{Expected, Words};

#[derive(Clone, Copy)]
pub enum Kind {
    Messages,
    Measured,
}

// A tray by what it lies in. That its size is one of a tray is said by `Fits` in the contracts below: an
// enum has no invariant, and a struct around it would be taken apart at each match.
#[derive(Clone, Copy)]
pub enum Part {
    // so many slots
    Open(u32),
    // so many bytes
    Packed(u32),
}

// A book before its first call. Its tray is one part, or the annex of two.
#[derive(Clone, Copy)]
pub struct Opening {
    pub kind: Kind,
    pub number: u16,
    pub first: Part,
    pub second: Option<Part>,
}

// No FromStr: a word that is missing is answered as a wrong one, and one match says both.
fn which_kind(words: &mut Words<'_>) -> Result<Kind, Expected> {
    match words.next() {
        Some("messages") => Ok(Kind::Messages),
        Some("measured") => Ok(Kind::Measured),
        _ => Err(Expected::Kind),
    }
}

// The part that this first word begins; the caller says what was expected if it begins none.
fn part_from(
    first: Option<&str>,
    words: &mut Words<'_>,
    expected: Expected,
) -> Result<Part, Expected>
    ensures { IfOk result Fits }
{
    match first {
        Some("open") => Ok(Part::Open(words.number(0, 1_000_000)?)),
        Some("packed") => Ok(Part::Packed(words.number(0, 24_000_000)?)),
        _ => Err(expected),
    }
}

// A part of an annex.
fn annexed(words: &mut Words<'_>) -> Result<Part, Expected>
    ensures { IfOk result Fits }
{
    let first = words.next();
    part_from(first, words, Expected::Part)
}

fn tray(words: &mut Words<'_>) -> Result<(Part, Option<Part>), Expected>
    ensures { IfOk result (λ parts. Fits parts.0 × FitsIfAny parts.1) }
{
    match words.next() {
        Some("annex") => {
            let first = annexed(words)?;
            let second = annexed(words)?;
            Ok((first, Some(second)))
        }
        first => Ok((part_from(first, words, Expected::Tray)?, None)),
    }
}

// The book that the first line tells.
pub fn read_opening(line: &str) -> Result<Opening, Expected>
    ensures { IfOk result (λ opening. Fits opening.first × FitsIfAny opening.second) }
{
    let mut words = Words::of(line);
    let kind = which_kind(&mut words)?;
    words.word("book")?;
    let number = words.any()?;
    let (first, second) = tray(&mut words)?;
    words.end()?;
    Ok(Opening {
        kind,
        number,
        first,
        second,
    })
}
