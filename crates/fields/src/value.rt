// What the bytes of a value say.
ghost use Rattle.std.specs.Prelude.{◌≡◌, ℕ, List};
ghost use Rattle.fields.specs.Values.{said, big, words_of, frame_of};

// What a value of one length says.
pub trait Value: Sized {
    ghost width: { ℕ };

    ghost says: { List ℕ → Self };

    // None if it is not just so many bytes.
    fn from_bytes(bytes: &[u8]) -> Option<Self>
        ensures { result ≡ said width says bytes.now };
}

impl Value for u8 {
    ghost width = { 1 };

    ghost says = { big };

    fn from_bytes(bytes: &[u8]) -> Option<u8> {
        match bytes {
            [a] => Some(*a),
            _ => None,
        }
    }
}

// Numbers of more bytes have their high byte first. An `impl` for each: one that a macro of this repository wrote
// would not pass the gate.
impl Value for u16 {
    ghost width = { 2 };

    ghost says = { big };

    fn from_bytes(bytes: &[u8]) -> Option<u16> {
        match bytes {
            [a, b] => Some(u16::from_be_bytes([*a, *b])),
            _ => None,
        }
    }
}

impl Value for u32 {
    ghost width = { 4 };

    ghost says = { big };

    fn from_bytes(bytes: &[u8]) -> Option<u32> {
        match bytes {
            [a, b, c, d] => Some(u32::from_be_bytes([*a, *b, *c, *d])),
            _ => None,
        }
    }
}

impl Value for [u32; 4] {
    ghost width = { 16 };

    ghost says = { words_of };

    fn from_bytes(bytes: &[u8]) -> Option<[u32; 4]> {
        match bytes.as_chunks() {
            ([a, b, c, d], []) => Some([word(a), word(b), word(c), word(d)]),
            _ => None,
        }
    }
}

// A frame, its record still words.
#[derive(Clone, Copy, PartialEq, Eq, Debug)]
pub struct RawFrame {
    pub kind: u8,
    pub time: u32,
    pub position: u32,
    pub words: [u32; 4],
}

impl Value for RawFrame {
    ghost width = { 25 };

    ghost says = { frame_of };

    fn from_bytes(bytes: &[u8]) -> Option<RawFrame> {
        let [kind, rest @ ..] = bytes else {
            return None;
        };
        match rest.as_chunks() {
            ([time, position, a, b, c, d], []) => Some(RawFrame {
                kind: *kind,
                time: word(time),
                position: word(position),
                words: [word(a), word(b), word(c), word(d)],
            }),
            _ => None,
        }
    }
}

fn word(bytes: &[u8; 4]) -> u32
    ensures { result ≡ big bytes.now }
{
    u32::from_be_bytes(*bytes)
}
