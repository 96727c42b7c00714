// Both ends of a telegram as theorems, which have no code.
ghost use Rattle.reading_end.specs.Laws.{RepliesBack, LayoutsExact};

use records::Record;

// Whatever reply is written reads back as what went in: the lone status, the entry's answer, the
// read's answer with every frame at its time and position and with a record that means the same.
pub fn replies_read_back<R: Record>()
    ensures { RepliesBack R.NUMBER R.reads R.writes R.means }
{}

// Bytes are taken as a reply exactly where they are sealed and one of the three layouts, as a reply
// is written.
pub fn layouts_exact<R: Record>()
    ensures { LayoutsExact R.NUMBER R.reads }
{}
