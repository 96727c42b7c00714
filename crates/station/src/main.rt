// A station: serves telegrams from standard input, each after its length, on one book for messages, and
// writes the replies likewise, each at once, so that a centre can talk to it through a pipe.
#![tactic(auto)]

use book::Book;
use framing::{Piece, cut};
use records::{Frame, Message, Record};
use serving::serve_stretch;
use std::io;
use std::io::{Read, Write};
use trays::{Annex, OpenTray, PackedTray, Slot, Tray};

// Serves one telegram after another until the input ends, or a length that no telegram has.
fn serve_input<T: Tray<Slot = Slot>>(
    rt: &HostRuntime,
    book: &mut Book<Message, T>,
    row: &mut [Frame<Message>],
    buffer: &mut [u8],
) -> io::Result<()> {
    let mut input = rt.stdin();
    let mut output = rt.stdout();
    let mut waiting = Vec::new(rt.alloc());
    let mut replies = Vec::new(rt.alloc());
    let mut chunk = [0; 4096];
    // counted, since a loop is proved to end: so many turns never come
    for _ in 0..u64::MAX {
        match cut(waiting.as_slice()) {
            Piece::Telegram(_, _) => {
                serve_stretch(book, waiting.as_slice(), row, buffer, &mut replies)?;
                output.write_all(replies.as_slice())?;
                output.flush()?;
                replies.clear();
                waiting.clear();
            }
            Piece::Incomplete(missing) => {
                // one read: an end of the input is met once, and no memory is asked for before a byte came
                let part = &mut chunk[..missing.min(4096)];
                let count = input.read(part)?;
                if count == 0 {
                    break;
                }
                waiting.extend_from_slice(&part[..count])?;
            }
            Piece::TooLong => break,
        }
    }
    Ok(())
}

fn main(rt: HostRuntime) -> io::Result<()> {
    let mut slots = [Slot::default(); 64];
    let mut bytes = [0; 1536];
    let mut row = [Frame::default(); 144];
    let mut buffer = [0; 4096];
    let tray = Annex::new(OpenTray::new(&mut slots), PackedTray::new(&mut bytes));
    let mut book = Book::new(1, tray);
    serve_input(&rt, &mut book, &mut row, &mut buffer)
}
