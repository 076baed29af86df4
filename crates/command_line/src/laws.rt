//! Laws of the definitions, each the contract of a function.
ghost use Rattle.command_line.specs.WordsLaw.{CheckIsTaken, DemoIsTaken, GreatestSeedIsTaken, InputIsNotShared};
ghost use Rattle.command_line.specs.WordsLaw.{OptionsMayBeLeftOut, RunIsTaken, SeedsHaveAnEnd, ThreadsAreTaken};
ghost use Rattle.command_line.specs.LimitsLaw.{MostThreads, ThreadsByDefault};

/// Words worked out by hand, and the commands that they give.
pub fn worked_words()
    ensures run { RunIsTaken }
    ensures options { OptionsMayBeLeftOut }
    ensures threads { ThreadsAreTaken }
    ensures check { CheckIsTaken }
    ensures demo { DemoIsTaken }
    ensures greatest { GreatestSeedIsTaken }
    ensures seeds { SeedsHaveAnEnd }
    ensures input { InputIsNotShared }
{}

/// The limits of the words in numbers.
pub fn worked_limits()
    ensures most { MostThreads }
    ensures threads { ThreadsByDefault }
{}
