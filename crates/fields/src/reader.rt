// Taking fields one after another.
ghost use Rattle.std.specs.Prelude.{◌+◌, ◌^◌, ◌<◌, length};

use crate::{Misfit, Tag, Value, next_field};

// What is left to read of bytes that are fields, and its offset. Clauses see it by `rest_of`: a struct
// that borrows and has a model cannot be copied, and the reading end reads a reply's frames twice.
#[derive(Clone, Copy, Debug)]
pub struct Reader<'a> {
    rest: &'a [u8],
    at: usize,
    ghost short: { at + length rest.now < 2 ^ 64 },
}

impl<'a> Reader<'a> {
    ghost use Rattle.std.specs.Prelude.{◌≡◌, ◌==◌, length};
    ghost use Rattle.fields.specs.Layout.{tag_number};
    ghost use Rattle.fields.specs.Reading.{rest_of, step_told, same, bytes_told, value_at, read_at, end_at, skipped};

    // At the first byte.
    pub fn new(bytes: &'a [u8]) -> Reader<'a>
        ensures { rest_of result ≡ (bytes.now, 0) }
    {
        Reader { rest: bytes, at: 0 }
    }

    // Where the next field begins.
    pub fn offset(&self) -> usize
        ensures { result ≡ (rest_of self.now).1 }
    {
        self.at
    }

    pub fn is_done(&self) -> bool
        ensures { result ≡ (length (rest_of self.now).0 == 0) }
    {
        self.rest.is_empty()
    }

    // Nothing more may come.
    pub fn end(&self) -> Result<(), Misfit>
        ensures { result ≡ end_at (rest_of self.now) }
    {
        if self.is_done() {
            Ok(())
        } else {
            Err(Misfit { at: self.at })
        }
    }

    // Passes over so many bytes, or what is left.
    pub fn skip(&mut self, n: usize)
        ensures { rest_of self.new ≡ skipped n (rest_of self.old) }
    {
        let n = n.min(self.rest.len());
        *self = Reader {
            rest: &self.rest[n..],
            at: self.at + n,
        };
    }

    // The value of the next field, whose tag has this number.
    pub fn value(&mut self, number: u8) -> Result<&'a [u8], Misfit>
        ensures { step_told bytes_told result (rest_of self.new) ≡ value_at number (rest_of self.old) }
    {
        let at = self.at;
        let (field, after) = next_field(self.rest, at)?;
        if field.tag().number() != number {
            return Err(Misfit { at });
        }
        let value = field.value();
        *self = Reader {
            rest: after,
            at: at + 3 + value.len(),
        };
        Ok(value)
    }

    // What that value says.
    pub fn value_as<V: Value>(&mut self, number: u8) -> Result<V, Misfit>
        ensures { step_told same result (rest_of self.new) ≡ read_at V.width V.says number (rest_of self.old) }
    {
        let at = self.at;
        V::from_bytes(self.value(number)?).ok_or(Misfit { at })
    }

    // What the value of the next field says, which has this tag.
    pub fn read<V: Value>(&mut self, tag: Tag) -> Result<V, Misfit>
        ensures { step_told same result (rest_of self.new) ≡ read_at V.width V.says (tag_number tag) (rest_of self.old) }
    {
        self.value_as(tag.number())
    }
}
