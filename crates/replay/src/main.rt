// Replays a session of calls on a new count book: reads it from standard input, a line for each call,
// and prints an answer for each.
#![tactic(auto)]

use records::{Frame, Measured, Message};
use runs::{Call, Outcome, Reply, run};
use std::alloc::{AllocError, Global};
use std::io;
use std::io::{BufRead, BufReader, Split, Stdin};
use trays::{Annex, OpenTray, PackedTray, Slot, Tray};
use wording::{
    AnswerLine, KeyLine, Kind, Opening, Part, UnreadableLine, Worded, read_call, read_opening,
};

type Lines = Split<BufReader<Stdin>>;

// The calls of a session, and what is told of the line at which its reading stopped.
#[derive(Drop)]
struct Script<R> {
    calls: Vec<Call<R>>,
    stop: Option<UnreadableLine>,
}

// Reads calls from the second line on, until a line that is none.
fn read_script<R: Worded>(heap: Global, lines: Lines) -> io::Result<Script<R>> {
    let mut calls = Vec::new(heap);
    // zipped with the numbers of the lines, since `enumerate` counts from 0
    for (line, bytes) in (2..u64::MAX).zip(lines) {
        let text = String::from_utf8_lossy(heap, bytes?.as_slice())?;
        match read_call(text.as_str()) {
            Ok(call) => calls.push(call)?,
            Err(expected) => {
                let stop = Some(UnreadableLine { line, expected });
                return Ok(Script { calls, stop });
            }
        }
    }
    Ok(Script { calls, stop: None })
}

// Zipped as in `read_script`, since the first call stands on the second line.
fn print_answers<R: Worded>(rt: &HostRuntime, replies: &[Reply<R>]) -> io::Result<()> {
    for (line, reply) in (2..u64::MAX).zip(replies) {
        println!(rt; "{}", AnswerLine { line, reply })?;
    }
    Ok(())
}

// The memory that a part of a tray lies in: of a part that is open the bytes are none, and of a packed
// one the slots.
#[derive(Drop)]
struct Memory {
    slots: Vec<Slot>,
    bytes: Vec<u8>,
}

impl Memory {
    fn of(heap: Global, part: Option<Part>) -> Result<Memory, AllocError> {
        let (slots, bytes) = match part {
            Some(Part::Open(slots)) => (slots, 0),
            Some(Part::Packed(bytes)) => (0, bytes),
            None => (0, 0),
        };
        Ok(Memory {
            slots: vec![in heap; Slot::default(); slots as usize]?,
            bytes: vec![in heap; 0; bytes as usize]?,
        })
    }

    fn open(&mut self) -> OpenTray<'_, Slot> {
        OpenTray::new(self.slots.as_mut_slice())
    }

    fn packed(&mut self) -> PackedTray<'_, Slot> {
        PackedTray::new(self.bytes.as_mut_slice())
    }
}

// A session over this tray. Its calls are the lines after the first.
fn session<R: Worded, T: Tray<Slot = Slot> + Drop>(
    rt: &HostRuntime,
    number: u16,
    tray: T,
    lines: Lines,
) -> io::Result<()> {
    let heap = rt.alloc();
    let Script { calls, stop } = read_script::<R>(heap, lines)?;
    let blank = Frame::<R>::default();
    let Outcome { replies, session } = run(heap, number, tray, blank, calls.as_slice())?;
    print_answers(rt, replies.as_slice())?;
    if let Some(stop) = stop {
        println!(rt; "{stop}")?;
    }
    if session.key.is_some() {
        println!(rt; "{}", KeyLine { book: number })?;
    }
    Ok(())
}

// A session of one kind, over the tray that its opening names. Each tray is a type of its own, since one for all,
// of parts that may be empty, would ask every part for its slots at each look.
fn hold<R: Worded>(rt: &HostRuntime, opening: Opening, lines: Lines) -> io::Result<()> {
    use Part::{Open, Packed};
    let heap = rt.alloc();
    let number = opening.number;
    let mut a = Memory::of(heap, Some(opening.first))?;
    let mut b = Memory::of(heap, opening.second)?;
    match (opening.first, opening.second) {
        (Open(_), None) => session::<R, _>(rt, number, a.open(), lines),
        (Packed(_), None) => session::<R, _>(rt, number, a.packed(), lines),
        (Open(_), Some(Open(_))) => {
            session::<R, _>(rt, number, Annex::new(a.open(), b.open()), lines)
        }
        (Open(_), Some(Packed(_))) => {
            session::<R, _>(rt, number, Annex::new(a.open(), b.packed()), lines)
        }
        (Packed(_), Some(Open(_))) => {
            session::<R, _>(rt, number, Annex::new(a.packed(), b.open()), lines)
        }
        (Packed(_), Some(Packed(_))) => {
            session::<R, _>(rt, number, Annex::new(a.packed(), b.packed()), lines)
        }
    }
}

// No line at all is read as an empty one.
fn first_line(heap: Global, lines: &mut Lines) -> io::Result<String> {
    match lines.next() {
        Some(bytes) => Ok(String::from_utf8_lossy(heap, bytes?.as_slice())?),
        None => Ok(String::new(heap)),
    }
}

fn main(rt: HostRuntime) -> io::Result<()> {
    let heap = rt.alloc();
    let mut lines = BufReader::new(heap, rt.stdin())?.split(heap, b'\n');
    let first = first_line(heap, &mut lines)?;
    match read_opening(first.as_str()) {
        Ok(opening) => match opening.kind {
            Kind::Messages => hold::<Message>(&rt, opening, lines),
            Kind::Measured => hold::<Measured>(&rt, opening, lines),
        },
        Err(expected) => println!(rt; "{}", UnreadableLine { line: 1, expected }),
    }
}
