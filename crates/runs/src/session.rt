// A book in use: the one that carries out calls by value holds the book's key while that is out.
ghost use Rattle.std.specs.Prelude.{◌≡◌, IfOk};
ghost use Rattle.book.specs.State.{new_list, with_key};
ghost use Rattle.book.specs.Told.{told, decided, left};
ghost use Rattle.book.specs.Calls.{take_checks, key_checks};
ghost use Rattle.runs.specs.Answers.{answer_of};
ghost use Rattle.runs.specs.Held.{held_one_way};
ghost use Rattle.runs.specs.Steps.{HeldKey, keyed_checks, keyed_state, world_of, step_answer, step_state, step_row};

use crate::lent::carry_out;
use crate::{Call, Reply};
use book::{Book, KeyPlace, ServiceKey};
use records::{Frame, Record};
use std::alloc::{AllocError, Global};
use trays::{Slot, Tray};

pub struct Session<R: Record, T: Tray<Slot = Slot>> {
    pub book: Book<R, T>,
    // held from an accepted take to the accepted hand back
    pub key: Option<ServiceKey>,
    pub ghost held: { HeldKey key book.number book.state.key } by { held_one_way key book.number book.state.key },
}

impl<R: Record, T: Tray<Slot = Slot>> Session<R, T> {
    pub fn new(number: u16, tray: T) -> Session<R, T>
        ensures number { result.book.number ≡ number }
        ensures state { result.book.state ≡ new_list }
        ensures tray { result.book.tray ≡ tray }
    {
        Session {
            book: Book::new(number, tray),
            key: None,
        }
    }

    // The tray again; the key, if it is out, goes back to the book first.
    pub fn close(mut self) -> T
        ensures { result ≡ self.book.tray }
    {
        self.give_back();
        let Session { book, key } = self;
        match key {
            None => book.close(),
            Some(_) => unreachable!(),
        }
    }

    // The book, and its key if that is out.
    pub fn into_parts(self) -> (Book<R, T>, Option<ServiceKey>)
        ensures book { result.0 ≡ self.book }
        ensures key { result.1 ≡ self.key }
        ensures held { HeldKey result.1 result.0.number result.0.state.key }
    {
        let Session { book, key } = self;
        (book, key)
    }

    // Hands the held key, if there is one, back to the book.
    fn give_back(&mut self)
        ensures state { self.new.book.state ≡ with_key KeyPlace.In self.old.book.state }
        ensures tray { self.new.book.tray ≡ self.old.book.tray }
        ensures number { self.new.book.number ≡ self.old.book.number }
        ensures key { self.new.key ≡ None }
    {
        if let Some(key) = self.key.take() {
            match self.book.hand_back(key) {
                Ok(()) => {}
                Err(_) => unreachable!(),
            }
        }
    }

    // One call, on the book as it stands.
    pub fn carry_out(
        &mut self,
        heap: Global,
        blank: Frame<R>,
        call: Call<R>,
    ) -> Result<Reply<R>, AllocError>
        ensures answer { IfOk result (λ reply. answer_of reply ≡ step_answer R.reads call (world_of T.Tray.row self.old.book)) }
        ensures state { self.new.book.state ≡ step_state call (world_of T.Tray.row self.old.book) }
        ensures slots { T.Tray.row self.new.book.tray ≡ step_row R.writes call (world_of T.Tray.row self.old.book) }
        ensures memory { T.Tray.memory self.new.book.tray ≡ T.Tray.memory self.old.book.tray }
        ensures number { self.new.book.number ≡ self.old.book.number }
    {
        let (reply, key) = carry_out(heap, &mut self.book, self.key.take(), blank, call);
        if let Some(key) = key {
            match self.key.replace(key) {
                None => {}
                Some(_) => unreachable!(),
            }
        }
        reply
    }
}

// A session that is let go hands its key back.
impl<R: Record, T: Tray<Slot = Slot> + Drop> Drop for Session<R, T> {
    fn drop(self) {
        let _ = self.close();
    }
}
