//! What holds of every text. Each law is a function that does nothing: its clause is the law.

ghost use Rattle.mfotl_sig.specs.Laws.{ReadIsSpelled, SpelledIsRead, OneAnswer, ExactFaults, ExactSoundness};
ghost use Rattle.mfotl_sig.specs.Laws.{StaysShown};
ghost use Rattle.mfotl_sig.specs.WorkedTexts.{WorkedValues, WorkedFaults};

/// A text that is read spells its predicates, and keeps the rules.
#[tactic(auto, using(crate::proofs::SignatureLaws::read_is_spelled))]
pub fn read_is_spelled()
    ensures { ReadIsSpelled }
{}

/// A text that spells predicates and keeps the rules is read.
pub fn spelled_is_read()
    ensures { SpelledIsRead }
{}

/// A text has exactly one of a value and a first fault.
#[tactic(auto, using(crate::proofs::SignatureLaws::one_answer))]
pub fn one_answer()
    ensures { OneAnswer }
{}

/// Each fault is told exactly where it is the first that is shown: `Syntax` by the first token that ends
/// viability or by the input's end, `Lex` behind the whole tokens, a rule's by the token that breaks it.
pub fn exact_faults()
    ensures { ExactFaults }
{}

/// The reader goes over tokens exactly where none of them shows a fault.
pub fn exact_soundness()
    ensures { ExactSoundness }
{}

/// What the front of a text shows is shown by the text.
#[tactic(auto, using(crate::proofs::SignatureLaws::stays_shown))]
pub fn stays_shown()
    ensures { StaysShown }
{}

/// Texts worked out by hand, and what is read of them.
pub fn worked_texts()
    ensures values { WorkedValues }
    ensures faults { WorkedFaults }
{}
