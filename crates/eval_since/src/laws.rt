//! Laws of SINCE and PREVIOUS, each stated by the contract of a function that does nothing.
ghost use Rattle.eval_since.specs.PreviousView.{PreviousDueIsSettled};
ghost use Rattle.eval_since.specs.SinceLaws.{BeginsFalse, DecidedBelow, SinceRecurrence, SinceIs};
ghost use Rattle.eval_since.specs.SinceView.{DueIsSettled};

/// What the first positions decide of SINCE goes on from position to position.
#[tactic(auto, using(crate::proofs::SinceLemmas::position_by_position))]
pub fn since_goes_on()
    ensures begins { BeginsFalse }
    ensures goes_on { SinceRecurrence }
    ensures is { SinceIs }
    ensures below { DecidedBelow }
{}

/// A position is due exactly where it is settled, for operands that are ready at the positions whose
/// tables were pushed.
pub fn since_due_is_settled()
    ensures { DueIsSettled }
{}

/// A position of PREVIOUS is due exactly where it is settled, for an operand that is ready at the
/// positions whose tables were pushed.
#[tactic(auto, using(crate::proofs::PreviousLemmas::previous_due_settled))]
pub fn previous_due_is_settled()
    ensures { PreviousDueIsSettled }
{}
