// What a field is, told by its first byte.
ghost use Rattle.std.specs.Prelude.{◌≡◌};
ghost use Rattle.fields.specs.Layout.{tag_number, lengths, length_in, Numbers};

#[derive(Clone, Copy, PartialEq, Eq, Debug)]
pub enum Tag {
    // of a request
    Method = 1,
    Time = 2,
    Position = 3,
    Limit = 4,
    FillLevel = 5,
    Party = 6,
    LastTime = 7,
    Words = 8,
    // of a reply
    Status = 0x10,
    FromTime = 0x11,
    FromPosition = 0x12,
    TillTime = 0x13,
    TillPosition = 0x14,
    Missed = 0x15,
    Version = 0x16,
    Count = 0x17,
    Called = 0x18,
    Frame = 0x20,
}

// A number that no tag has.
#[derive(Clone, Copy, PartialEq, Eq, Debug)]
pub struct UnknownTag(pub u8);

impl Tag {
    // The byte that stands for it.
    pub fn number(self) -> u8
        ensures { result ≡ tag_number self }
    {
        self as u8
    }

    // How many bytes its value has.
    pub fn length(self) -> usize
        ensures { result ≡ length_in lengths (tag_number self) }
    {
        match self {
            Tag::FillLevel | Tag::Party | Tag::Called => 1,
            Tag::Method | Tag::Limit | Tag::Status | Tag::Count => 2,
            Tag::Time | Tag::Position | Tag::LastTime => 4,
            Tag::FromTime | Tag::FromPosition | Tag::TillTime | Tag::TillPosition => 4,
            Tag::Missed | Tag::Version => 4,
            Tag::Words => 16,
            Tag::Frame => 25,
        }
    }
}

impl TryFrom<u8> for Tag {
    type Error = UnknownTag;

    ghost try_from_gives = { Numbers };

    fn try_from(number: u8) -> Result<Tag, UnknownTag> {
        Ok(match number {
            1 => Tag::Method,
            2 => Tag::Time,
            3 => Tag::Position,
            4 => Tag::Limit,
            5 => Tag::FillLevel,
            6 => Tag::Party,
            7 => Tag::LastTime,
            8 => Tag::Words,
            0x10 => Tag::Status,
            0x11 => Tag::FromTime,
            0x12 => Tag::FromPosition,
            0x13 => Tag::TillTime,
            0x14 => Tag::TillPosition,
            0x15 => Tag::Missed,
            0x16 => Tag::Version,
            0x17 => Tag::Count,
            0x18 => Tag::Called,
            0x20 => Tag::Frame,
            _ => return Err(UnknownTag(number)),
        })
    }
}
