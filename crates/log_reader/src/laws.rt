//! What holds of every log. Each law is a function that does nothing: its clause is the law.

ghost use Rattle.log_reader.specs.DemoPoints.{DemoSignatureIsAccepted, DemoLogIsAccepted};
ghost use Rattle.log_reader.specs.Growth.{ShownStays};
ghost use Rattle.log_reader.specs.Laws.{ReadIsSpelled, SpelledIsRead, OneAnswer, ExactFaults};
ghost use Rattle.log_reader.specs.Laws.{PointsAreCompleted};
ghost use Rattle.log_reader.specs.WorkedTexts.{WorkedValues, WorkedFaults, WorkedFronts, WorkedPrints, WorkedDemo};

/// A log that is read to its end spells its time-points, and keeps the rules.
#[tactic(auto, using(crate::proofs::LogLaws::read_is_value))]
pub fn read_is_spelled()
    ensures { ReadIsSpelled }
{}

/// A log that spells time-points and keeps the rules is read to its end.
pub fn spelled_is_read()
    ensures { SpelledIsRead }
{}

/// A log has exactly one of a value and a first fault.
#[tactic(auto, using(crate::proofs::LogLaws::one_of_two))]
pub fn one_answer()
    ensures { OneAnswer }
{}

/// The time-points before a fault are those of the longest front that is completed.
pub fn points_are_completed()
    ensures { PointsAreCompleted }
{}

/// Each fault comes exactly where a token, the bytes behind the tokens or their end are the first to show it: `Syntax`
/// by the first token that ends viability, or by the input's end.
pub fn exact_faults()
    ensures { ExactFaults }
{}

/// What the front of a log shows, its end not told, is shown by the whole log.
#[tactic(auto, using(crate::proofs::GrowthLemmas::shown_stays))]
pub fn shown_stays()
    ensures { ShownStays }
{}

/// Logs worked out by hand, what is read of them, and how faults are printed.
pub fn worked_texts()
    ensures values { WorkedValues }
    ensures faults { WorkedFaults }
    ensures fronts { WorkedFronts }
    ensures prints { WorkedPrints }
    ensures demo { WorkedDemo }
{}

/// The demo of each seed is accepted: its signature is read, and its log is read to its end.
pub fn demo_is_accepted()
    ensures signature { DemoSignatureIsAccepted }
    ensures log { DemoLogIsAccepted }
{}
