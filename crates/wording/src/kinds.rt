// What differs by the kind of record: its words, read and written.
use crate::{Expected, Words};
use records::{Channel, Measured, Message, Record, Temperature};
use std::fmt;

// The default is for the rows of reads before they are filled.
pub trait Worded: Record + Default {
    // The record that the next words tell.
    fn from_words(words: &mut Words<'_>) -> Result<Self, Expected>;

    // Writes the same words again.
    fn write_words<W: fmt::Write>(&self, f: &mut fmt::Formatter<W>) -> fmt::Result;
}

impl Worded for Message {
    fn from_words(words: &mut Words<'_>) -> Result<Message, Expected> {
        let maker = words.named("maker")?;
        let object = words.named("object")?;
        words.word("degree")?;
        let degree = words.number_as(1, 6)?;
        let process = words.named("process")?;
        Ok(Message {
            maker,
            object,
            degree,
            process,
        })
    }

    fn write_words<W: fmt::Write>(&self, f: &mut fmt::Formatter<W>) -> fmt::Result {
        let Message {
            maker,
            object,
            degree,
            process,
        } = self;
        let degree = degree.number();
        write!(
            f,
            "maker {maker} object {object} degree {degree} process {process}"
        )
    }
}

impl Worded for Measured {
    fn from_words(words: &mut Words<'_>) -> Result<Measured, Expected> {
        words.word("channel")?;
        let (least, most) = (1, 64);
        let channel = Channel::new(words.number(least, most)?).ok_or(Expected::Number {
            least,
            most,
        })?;
        let bicycles = words.named("bicycles")?;
        let walkers = words.named("walkers")?;
        words.word("temperature")?;
        let temperature = Temperature::new(words.tenths()?).ok_or(Expected::Temperature)?;
        Ok(Measured {
            channel,
            bicycles,
            walkers,
            temperature,
        })
    }

    fn write_words<W: fmt::Write>(&self, f: &mut fmt::Formatter<W>) -> fmt::Result {
        let Measured {
            channel,
            bicycles,
            walkers,
            temperature,
        } = self;
        let channel = channel.number();
        let temperature = temperature.tenths();
        write!(
            f,
            "channel {channel} bicycles {bicycles} walkers {walkers} temperature {temperature}"
        )
    }
}
