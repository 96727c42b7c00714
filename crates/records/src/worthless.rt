// What the first law shuts out: a kind that writes the same words for every record, and one that
// reads every row of words as one record. The theorem is about what the kind's own `impl` says that
// its records mean.
ghost use Rattle.records.specs.Laws.{WorthlessShutOut};

use crate::Varied;

pub fn worthless_shut_out<R: Varied>()
    ensures { WorthlessShutOut R.means }
{}
