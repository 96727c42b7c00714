// The demonstration: count books for messages, used from beginning to end, through the worked cases.
#![tactic(auto)]

ghost use Rattle.std.specs.Prelude.{◌≡◌};

use book::{Book, BookFault, Mode, Reading, ServiceKey, Status};
use records::{Degree, Frame, Message, Record};
use std::io;
use trays::{OpenTray, Slot, Tray};

// What the station reports, with its times.
const ENTRIES: [(u32, Message); 5] = [
    (
        10,
        Message {
            maker: 7,
            object: 12,
            degree: Degree::Second,
            process: 101,
        },
    ),
    (
        10,
        Message {
            maker: 7,
            object: 12,
            degree: Degree::Fourth,
            process: 102,
        },
    ),
    (
        11,
        Message {
            maker: 7,
            object: 30,
            degree: Degree::Third,
            process: 103,
        },
    ),
    (
        12,
        Message {
            maker: 9,
            object: 30,
            degree: Degree::Sixth,
            process: 104,
        },
    ),
    (
        12,
        Message {
            maker: 7,
            object: 12,
            degree: Degree::First,
            process: 105,
        },
    ),
];

// Takes the key, makes one call that shows it, and hands it back. The call leaves the book's number and
// the place of its key as they were. No call of the book, which asks nothing of its caller.
fn with_key<R: Record, T: Tray<Slot = Slot>, F>(
    book: &mut Book<R, T>,
    call: F,
) -> Result<(), BookFault>
where
    F: FnOnce(&mut Book<R, T>, &ServiceKey) -> Result<(), BookFault>,
    requires callable { F.IsAlwaysCallable call }
    requires keeps { (old : _) (key : _) (answer : _) (new : _) → F.post call old key answer new → (new.now.number ≡ old.now.number) × (new.now.state.key ≡ old.now.state.key) }
{
    let key = book.take()?;
    let answer = call(book, &key);
    match book.hand_back(key) {
        Ok(()) => answer,
        Err(_) => unreachable!(),
    }
}

fn print_entry<T: Tray<Slot = Slot>>(
    rt: &HostRuntime,
    book: &mut Book<Message, T>,
    time: u32,
    message: Message,
) -> io::Result<()> {
    match book.enter(time, message) {
        Ok(entered) => {
            let position = entered.position;
            match entered.called {
                [false, false, false, false] => println!(rt;
                    "Entered at time {time}: position {position}."
                ),
                [first, ..] => {
                    let whom = if first { "party 1" } else { "another party" };
                    println!(rt; "Entered at time {time}: position {position}, calls {whom}.")
                }
            }
        }
        Err(fault) => print_fault(rt, fault),
    }
}

fn print_fault(rt: &HostRuntime, fault: BookFault) -> io::Result<()> {
    let number = fault.number();
    println!(rt; "Refused with {number}.")
}

fn print_gap(rt: &HostRuntime, missed: u32) -> io::Result<()> {
    match missed {
        0 => println!(rt; "No gap."),
        1 => println!(rt; "Gap: 1 frame missed."),
        _ => println!(rt; "Gap: {missed} frames missed."),
    }
}

fn print_frame(rt: &HostRuntime, frame: &Frame<Message>) -> io::Result<()> {
    let (time, position) = frame.mark();
    let Message {
        maker,
        object,
        degree,
        process,
    } = frame.body;
    let degree = degree.number();
    println!(rt;
        "Frame {position} at time {time}: degree {degree}, maker {maker}, object type {object}, process {process}."
    )
}

fn print_reading(rt: &HostRuntime, reading: &Reading, row: &[Frame<Message>]) -> io::Result<()> {
    print_gap(rt, reading.missed)?;
    for frame in row.iter().take(reading.count as usize) {
        print_frame(rt, frame)?;
    }
    let (time, position) = reading.till;
    println!(rt; "Read on from mark ({time}, {position}).")?;
    match reading.status {
        Status::Follow => println!(rt; "More frames follow."),
        Status::NoFollow => println!(rt; "No more frames follow."),
        Status::NoFrame => println!(rt; "No frame was given."),
    }
}

// Reads on from a mark, and prints what was found.
fn print_since<T: Tray<Slot = Slot>>(
    rt: &HostRuntime,
    book: &Book<Message, T>,
    mark: (u32, u32),
    limit: u16,
) -> io::Result<()> {
    let (time, position) = mark;
    println!(rt; "Reading on from mark ({time}, {position}), limit {limit}.")?;
    let mut row = [Frame::default(); 144];
    match book.since(mark, limit, &mut row) {
        Ok(reading) => print_reading(rt, &reading, &row),
        Err(fault) => print_fault(rt, fault),
    }
}

// Releases frames, and starts the list anew.
fn print_leaving<T: Tray<Slot = Slot>>(
    rt: &HostRuntime,
    book: &mut Book<Message, T>,
) -> io::Result<()> {
    print_done(
        rt,
        "Released up to position 4",
        with_key(book, |book, key| book.release(key, 4)),
    )?;
    print_since(rt, book, (11, 3), 144)?;
    print_done(rt, "Stopped", with_key(book, Book::stop))?;
    print_done(rt, "Started", with_key(book, Book::start))?;
    print_since(rt, book, (12, 4), 144)
}

fn print_done(rt: &HostRuntime, what: &str, answer: Result<(), BookFault>) -> io::Result<()> {
    match answer {
        Ok(()) => println!(rt; "{what}."),
        Err(fault) => print_fault(rt, fault),
    }
}

// Three slots: the gap, what is known and what is not, and how frames leave.
fn print_trial_book(rt: &HostRuntime) -> io::Result<()> {
    let mut slots = [Slot::default(); 3];
    let mut book = Book::new(1, OpenTray::new(&mut slots));
    println!(rt; "A count book for messages, book 1, over 3 slots.")?;
    print_done(
        rt,
        "Key taken, list started, key handed back",
        with_key(&mut book, Book::start),
    )?;
    for (time, message) in ENTRIES {
        print_entry(rt, &mut book, time, message)?;
    }
    print_since(rt, &book, (0, 0), 144)?;
    print_since(rt, &book, (10, 2), 144)?;
    print_since(rt, &book, (11, 3), 1)?;
    print_since(rt, &book, (10, 3), 144)?;
    print_since(rt, &book, (0, 6), 144)?;
    print_entry(rt, &mut book, 11, Message::default())?;
    print_leaving(rt, &mut book)
}

// Four slots, of which a party wants to be called at more than half.
fn print_calling(rt: &HostRuntime) -> io::Result<()> {
    let mut slots = [Slot::default(); 4];
    let mut book = Book::new(2, OpenTray::new(&mut slots));
    println!(rt; "Book 2, over 4 slots.")?;
    print_done(rt, "Started", with_key(&mut book, Book::start))?;
    print_done(
        rt,
        "Party 1 listens from mark (0, 0) at fill level 50",
        book.listen(1, (0, 0), 50),
    )?;
    print_entry(rt, &mut book, 1, Message::default())?;
    print_entry(rt, &mut book, 1, Message::default())?;
    print_entry(rt, &mut book, 1, Message::default())
}

// Two slots in keep mode: the third frame waits for a release.
fn print_keeping(rt: &HostRuntime) -> io::Result<()> {
    let mut slots = [Slot::default(); 2];
    let mut book = Book::new(3, OpenTray::new(&mut slots));
    println!(rt; "Book 3, over 2 slots, in keep mode.")?;
    print_done(
        rt,
        "Mode set",
        with_key(&mut book, |book, key| book.set_mode(key, Mode::Keep)),
    )?;
    print_done(rt, "Started", with_key(&mut book, Book::start))?;
    print_entry(rt, &mut book, 1, Message::default())?;
    print_entry(rt, &mut book, 1, Message::default())?;
    print_entry(rt, &mut book, 1, Message::default())?;
    print_done(
        rt,
        "Released up to position 1",
        with_key(&mut book, |book, key| book.release(key, 1)),
    )?;
    print_entry(rt, &mut book, 1, Message::default())
}

fn main(rt: HostRuntime) -> io::Result<()> {
    print_trial_book(&rt)?;
    print_calling(&rt)?;
    print_keeping(&rt)
}
