//! Laws of the definitions, each the contract of a function.
ghost use Rattle.lone_worker.specs.Laws.{LimitsInFull, TallyOfThree, ViolationsCounted};

/// Some verdict on what was read has a row exactly where the number of those that have one isn't 0.
pub fn violations_counted()
    ensures { ViolationsCounted }
{}

/// What is counted of three verdicts, and how much a log may have.
pub fn worked_numbers()
    ensures tally { TallyOfThree }
    ensures limits { LimitsInFull }
{}
