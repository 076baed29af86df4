//! What holds of every text. Each law is a function that does nothing: its clause is the law.

ghost use Rattle.slice_strategy.specs.Laws.{ReadIsSpelled, SpelledIsRead, OneAnswer, ExactFaults};
ghost use Rattle.slice_strategy.specs.Laws.{ExactSoundness, StaysShown};
ghost use Rattle.slice_strategy.specs.ChangeLaws as changes;
ghost use Rattle.slice_strategy.specs.ChangeTexts.{WorkedChanges, WorkedChangeFaults};
ghost use Rattle.slice_strategy.specs.WorkedParts.{WorkedParts};
ghost use Rattle.slice_strategy.specs.WorkedTexts.{WorkedValues, WorkedFaults};

/// A text that is read spells its strategy, and keeps the rules.
#[tactic(auto, using(crate::proofs::StrategyLaws::read_is_spelled))]
pub fn read_is_spelled()
    ensures { ReadIsSpelled }
{}

/// A text that spells entries and keeps the rules is read.
pub fn spelled_is_read()
    ensures { SpelledIsRead }
{}

/// A text has exactly one of a strategy and a first fault.
#[tactic(auto, using(crate::proofs::StrategyLaws::one_answer))]
pub fn one_answer()
    ensures { OneAnswer }
{}

/// Each fault is told exactly where it is the first that is shown: `Syntax` by the first token that ends
/// viability, by the input's end or by bytes that form no token, a rule's by the token that breaks it, and
/// `TooManyWorkers` by what follows the entry's last integer and is no comma.
pub fn exact_faults()
    ensures { ExactFaults }
{}

/// The reader goes over tokens exactly where none of them shows a fault.
pub fn exact_soundness()
    ensures { ExactSoundness }
{}

/// What the front of a text shows is shown by the text.
#[tactic(auto, using(crate::proofs::ReadingLemmas::stays_shown))]
pub fn stays_shown()
    ensures { StaysShown }
{}

/// Texts worked out by hand, and what is read of them.
pub fn worked_texts()
    ensures values { WorkedValues }
    ensures faults { WorkedFaults }
{}

/// Texts worked out by hand, and the parts that they are in.
pub fn worked_parts()
    ensures { WorkedParts }
{}

/// A change script has exactly one of a list of changes, which it spells, and a first fault.
#[tactic(auto, using(crate::proofs::ChangeTextLaws::one_answer))]
pub fn one_answer_of_changes()
    ensures { changes.OneAnswer }
{}

/// Each fault of a change script is told exactly where it is the first that is shown.
pub fn exact_faults_of_changes()
    ensures { changes.ExactFaults }
{}

/// The reader of change scripts goes over tokens exactly where none of them shows a fault.
pub fn exact_soundness_of_changes()
    ensures { changes.ExactSoundness }
{}

/// What the front of a change script shows is shown by the script.
#[tactic(auto, using(crate::proofs::ChangeTextLaws::stays_shown))]
pub fn changes_stay_shown()
    ensures { changes.StaysShown }
{}

/// Change scripts worked out by hand, and what is read of them.
pub fn worked_changes()
    ensures values { WorkedChanges }
    ensures faults { WorkedChangeFaults }
{}
