// A line read into a call. That the row of a read fits is said by `RoomFits` in each contract: a type of
// its own for such calls would narrow what a run takes.
ghost use Rattle.std.specs.Prelude.{◌≤◌, IfOk};
ghost use Rattle.wording.specs.Rooms.{RoomFits};

use crate::{Expected, Worded, Words};
use book::Mode;
use runs::Call;

fn mark(words: &mut Words<'_>) -> Result<(u32, u32), Expected> {
    words.word("mark")?;
    let time = words.any()?;
    let position = words.any()?;
    Ok((time, position))
}

// Of so many frames is the row that a read brings; no read fills more than 144.
fn room(words: &mut Words<'_>) -> Result<u16, Expected>
    ensures { IfOk result (λ room. room ≤ 144) }
{
    words.word("room")?;
    words.number_as(0, 144)
}

// No FromStr: a word that is missing is answered as a wrong one, and one match says both.
fn mode(words: &mut Words<'_>) -> Result<Mode, Expected> {
    match words.next() {
        Some("ring") => Ok(Mode::Ring),
        Some("keep") => Ok(Mode::Keep),
        _ => Err(Expected::Mode),
    }
}

fn set_mode<R: Worded>(words: &mut Words<'_>) -> Result<Call<R>, Expected>
    ensures { IfOk result RoomFits }
{
    let mode = mode(words)?;
    let key = words.named("key")?;
    Ok(Call::SetMode { key, mode })
}

fn enter<R: Worded>(words: &mut Words<'_>) -> Result<Call<R>, Expected>
    ensures { IfOk result RoomFits }
{
    let time = words.any()?;
    let record = R::from_words(words)?;
    Ok(Call::Enter { time, record })
}

fn release<R: Worded>(words: &mut Words<'_>) -> Result<Call<R>, Expected>
    ensures { IfOk result RoomFits }
{
    let position = words.any()?;
    let key = words.named("key")?;
    Ok(Call::Release { key, position })
}

fn listen<R: Worded>(words: &mut Words<'_>) -> Result<Call<R>, Expected>
    ensures { IfOk result RoomFits }
{
    let party = words.any()?;
    let mark = mark(words)?;
    let fill = words.named("fill")?;
    Ok(Call::Listen { party, mark, fill })
}

fn since<R: Worded>(words: &mut Words<'_>) -> Result<Call<R>, Expected>
    ensures { IfOk result RoomFits }
{
    let mark = mark(words)?;
    let limit = words.named("limit")?;
    let room = room(words)?;
    Ok(Call::Since { mark, limit, room })
}

fn span<R: Worded>(words: &mut Words<'_>) -> Result<Call<R>, Expected>
    ensures { IfOk result RoomFits }
{
    let first = words.any()?;
    let last = words.any()?;
    let limit = words.named("limit")?;
    let room = room(words)?;
    Ok(Call::Span {
        first,
        last,
        limit,
        room,
    })
}

fn hand_back<R: Worded>(words: &mut Words<'_>) -> Result<Call<R>, Expected>
    ensures { IfOk result RoomFits }
{
    words.word("back")?;
    let key = words.named("key")?;
    Ok(Call::HandBack { key })
}

fn call<R: Worded>(words: &mut Words<'_>) -> Result<Call<R>, Expected>
    ensures { IfOk result RoomFits }
{
    match words.next() {
        Some("enter") => enter(words),
        Some("start") => Ok(Call::Start {
            key: words.named("key")?,
        }),
        Some("stop") => Ok(Call::Stop {
            key: words.named("key")?,
        }),
        Some("mode") => set_mode(words),
        Some("release") => release(words),
        Some("listen") => listen(words),
        Some("since") => since(words),
        Some("oldest") => Ok(Call::Oldest { room: room(words)? }),
        Some("youngest") => Ok(Call::Youngest { room: room(words)? }),
        Some("span") => span(words),
        Some("take") => Ok(Call::Take),
        Some("hand") => hand_back(words),
        _ => Err(Expected::Call),
    }
}

// The call that a line tells.
pub fn read_call<R: Worded>(line: &str) -> Result<Call<R>, Expected>
    ensures { IfOk result RoomFits }
{
    let mut words = Words::of(line);
    let call = call(&mut words)?;
    words.end()?;
    Ok(call)
}
