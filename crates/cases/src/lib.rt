// Worked cases of the rules, and books that are worth nothing: theorems about the definitions that
// the contracts of the book and of `run` use. The functions carry them and do nothing.
#![tactic(auto)]

ghost use Rattle.cases.specs.Trial.{Trial};
ghost use Rattle.cases.specs.Worthless.{ShutOut};

// What a book of three, four or two slots answers in nine worked cases, and worked seals, jointly.
pub fn worked_cases()
    ensures { Trial }
{}

// The law shuts out six books that are worth nothing.
pub fn worthless_shut_out()
    ensures { ShutOut }
{}
