// What holds of stretches together.
ghost use Rattle.serving.specs.Sessions.{StretchesJoin};

use records::Record;

// An input that comes in two stretches makes a station write, and leaves its book, as if it came in one,
// where the bytes that wait after the first are put before the second.
pub fn stretches_join<R: Record>()
    ensures { StretchesJoin R.NUMBER R.reads R.writes }
{}
