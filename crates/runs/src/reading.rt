// Reads in a run, each with a row of its own.
ghost use Rattle.std.specs.Prelude.{◌≡◌, List, ◌++◌, length, IfOk, vec_len};
ghost use Rattle.book.specs.Told.{told, decided, left};
ghost use Rattle.book.specs.Reads.{laid};
ghost use Rattle.runs.specs.Answers.{answer_of, as_given, given};
ghost use Rattle.runs.specs.Steps.{read_checks, read_answer, read_gives};

use crate::asked::Read;
use crate::{Accepted, Reply};
use book::{Book, BookFault, Reading};
use records::{Frame, Record};
use std::alloc::{AllocError, Global};
use trays::{Slot, Tray};

// A read into the caller's row, told by its case as in the definitions.
pub fn ask<R: Record, T: Tray<Slot = Slot>>(
    book: &Book<R, T>,
    read: Read,
    into: &mut [Frame<R>],
) -> Result<Reading, BookFault>
    ensures answer { let b = book.now in let old = into.old in let slots = T.Tray.row b.tray in let room = length old in told result ≡ decided (read_checks read b.state slots room) (read_answer R.reads read b.state slots room) }
    ensures row { let b = book.now in let old = into.old in let slots = T.Tray.row b.tray in let room = length old in into.new ≡ left (read_checks read b.state slots room) (laid (read_gives R.reads read b.state slots room) old) old }
{
    match read {
        Read::Since { mark, limit } => book.since(mark, limit, into),
        Read::Oldest => book.oldest(into),
        Read::Youngest => book.youngest(into),
        Read::Span { first, last, limit } => book.span(first, last, limit, into),
    }
}

// A read with a row of its own.
pub(crate) fn read_own<R: Record, T: Tray<Slot = Slot>>(
    heap: Global,
    book: &Book<R, T>,
    blank: Frame<R>,
    read: Read,
    room: u16,
) -> Result<Reply<R>, AllocError>
    ensures { let b = book.now in let slots = T.Tray.row b.tray in IfOk result (λ reply. answer_of reply ≡ as_given (decided (read_checks read b.state slots room) (read_answer R.reads read b.state slots room)) (read_gives R.reads read b.state slots room)) }
{
    let mut row = vec![in heap; blank; room as usize]?;
    Ok(ask(book, read, &mut row).map(|reading| {
        row.truncate(reading.count as usize);
        Accepted::Gave(reading, row)
    }))
}
