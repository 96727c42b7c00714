// What stands at the front of an input.
ghost use Rattle.std.specs.Prelude.{◌≡◌, ◌+◌, ◌*◌};
ghost use Rattle.framing.specs.Frames.{piece_told, front};

// The longest telegram.
const LONGEST: usize = 4096;

// No Result: that more bytes have to come is no error, and a station then waits for them.
#[derive(Clone, Copy, PartialEq, Eq, Debug)]
pub enum Piece<'a> {
    // a telegram, and the bytes after it
    Telegram(&'a [u8], &'a [u8]),
    // how many bytes have to come before more can be said
    Incomplete(usize),
    // a length that no telegram has
    TooLong,
}

pub fn cut<'a>(input: &'a [u8]) -> Piece<'a>
    ensures { piece_told result ≡ front input.now }
{
    let [a, b, c, d, rest @ ..] = input else {
        return Piece::Incomplete(4 - input.len());
    };
    let length = u32::from_be_bytes([*a, *b, *c, *d]) as usize;
    if length > LONGEST {
        return Piece::TooLong;
    }
    if length > rest.len() {
        return Piece::Incomplete(length - rest.len());
    }
    let (telegram, after) = rest.split_at(length);
    Piece::Telegram(telegram, after)
}
