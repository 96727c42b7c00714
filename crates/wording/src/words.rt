// The words of a line, from left to right.
ghost use Rattle.std.specs.Prelude.{◌≤◌, ℕ, Ok, pos, negsuc, ◌≤ℤ◌, IfOk};

use crate::Expected;
use crate::numbers::{plain, tenths};
use num_traits::Bounded;
use std::str::Split;

#[derive(Drop)]
pub struct Words<'a> {
    rest: Split<'a, char>,
}

impl<'a> Iterator for Words<'a> {
    type Item = &'a str;

    fn next(&mut self) -> Option<&'a str> {
        self.rest.next()
    }
}

impl<'a> Words<'a> {
    pub fn of(line: &'a str) -> Words<'a> {
        Words {
            rest: line.split(' '),
        }
    }

    // This word and no other.
    pub fn word(&mut self, word: &'static str) -> Result<(), Expected> {
        match self.next() {
            Some(next) if next == word => Ok(()),
            _ => Err(Expected::Word(word)),
        }
    }

    // A number of these bounds.
    pub fn number(&mut self, least: u32, most: u32) -> Result<u32, Expected>
        ensures { IfOk result (λ n. (least ≤ n) × (n ≤ most)) }
    {
        self.number_as(least, most)
    }

    // A number of these bounds, as what is made of it.
    pub fn number_as<N: TryFrom<u32>>(&mut self, least: u32, most: u32) -> Result<N, Expected>
    where
        N::Error: Drop,
        ensures { IfOk result (λ made. (n : ℕ) × (least ≤ n) × (n ≤ most) × N.try_from_gives n (Ok made)) }
    {
        self.next()
            .and_then(plain)
            .filter(|number| (least..=most).contains(number))
            .and_then(|number| N::try_from(number).ok())
            .ok_or(Expected::Number { least, most })
    }

    // Any number of the type that is wanted.
    pub(crate) fn any<N: Bounded + Into<u32> + TryFrom<u32>>(&mut self) -> Result<N, Expected>
    where
        <N as TryFrom<u32>>::Error: Drop,
    {
        self.number_as(0, N::max_value().into())
    }

    // This word, and then any number.
    pub(crate) fn named<N: Bounded + Into<u32> + TryFrom<u32>>(
        &mut self,
        word: &'static str,
    ) -> Result<N, Expected>
    where
        <N as TryFrom<u32>>::Error: Drop,
    {
        self.word(word)?;
        self.any()
    }

    // Tenths of a degree, -600 to 600; below zero with a `-` before them.
    pub fn tenths(&mut self) -> Result<i32, Expected>
        ensures { IfOk result (λ t. (negsuc 599 ≤ℤ t) × (t ≤ℤ pos 600)) }
    {
        self.next().and_then(tenths).ok_or(Expected::Temperature)
    }

    // No further word.
    pub fn end(&mut self) -> Result<(), Expected> {
        match self.next() {
            None => Ok(()),
            Some(_) => Err(Expected::End),
        }
    }
}
