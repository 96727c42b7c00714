// What a line should have had where it could not be read.
ghost use Rattle.std.specs.Prelude.{Some};
ghost use Rattle.wording.specs.Expecting.{expected_words};

use std::fmt;

#[derive(Clone, Copy)]
pub enum Expected {
    // the kind of book
    Kind,
    // any tray
    Tray,
    // a tray in an annex
    Part,
    // the first word of a call
    Call,
    Mode,
    Word(&'static str),
    Number { least: u32, most: u32 },
    Temperature,
    End,
}

impl fmt::Display for Expected {
    ghost output = { λ e. Some (expected_words e) };

    fn fmt<W: fmt::Write>(&self, f: &mut fmt::Formatter<W>) -> fmt::Result {
        let words = match *self {
            Expected::Kind => "messages or measured",
            Expected::Tray => "open, packed or annex",
            Expected::Part => "open or packed",
            Expected::Call => {
                "enter, start, stop, mode, release, listen, since, oldest, youngest, span, take or hand"
            }
            Expected::Mode => "ring or keep",
            Expected::Word(word) => word,
            Expected::Number { least, most } => {
                return write!(f, "a number from {least} to {most}");
            }
            Expected::Temperature => "a number from -600 to 600",
            Expected::End => "the end of the line",
        };
        f.write_str(words)
    }
}
