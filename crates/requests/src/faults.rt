// Why a telegram or a reply is refused. A fault of the layer below is carried whole.
ghost use Rattle.std.specs.Prelude.{◌≡◌};
ghost use Rattle.requests.specs.declared.faults.TelegramFault.TheVariants.{Form, Book};
ghost use Rattle.requests.specs.Faults.{fault_number, fault_layer};

use book::BookFault;
use fields::Misfit;

#[derive(Clone, Copy, PartialEq, Eq, Debug)]
pub enum TelegramFault {
    // under 2 or over 4,096 bytes
    Length,
    // the buffer or the row is too short
    NoBuffer,
    // not sealed
    Seal,
    // the offset of the first field that does not fit
    Form(usize),
    // a method that is not 1 to 9
    NoMethod,
    // a frame of another kind
    OtherKind,
    Book(BookFault),
}

// The layer that a refusal comes from.
#[derive(Clone, Copy, PartialEq, Eq, Debug)]
pub enum Layer {
    Telegram,
    Book,
    Record,
    Tray,
}

impl TelegramFault {
    pub fn number(self) -> u16
        ensures { result ≡ fault_number self }
    {
        // two cases carry more, so no cast tells the number
        match self {
            TelegramFault::Length => 11,
            TelegramFault::NoBuffer => 10,
            TelegramFault::Seal => 12,
            TelegramFault::Form(_) => 13,
            TelegramFault::NoMethod => 14,
            TelegramFault::OtherKind => 17,
            TelegramFault::Book(fault) => fault.number(),
        }
    }

    pub fn layer(self) -> Layer
        ensures { result ≡ fault_layer self }
    {
        match self {
            TelegramFault::Book(BookFault::Record(_)) => Layer::Record,
            TelegramFault::Book(BookFault::Tray(_)) => Layer::Tray,
            TelegramFault::Book(_) => Layer::Book,
            _ => Layer::Telegram,
        }
    }
}

impl From<Misfit> for TelegramFault {
    ghost from_gives = { λ e r. r ≡ Form e.at };

    fn from(misfit: Misfit) -> TelegramFault {
        TelegramFault::Form(misfit.at)
    }
}

impl From<BookFault> for TelegramFault {
    ghost from_gives = { λ e r. r ≡ Book e };

    fn from(fault: BookFault) -> TelegramFault {
        TelegramFault::Book(fault)
    }
}
