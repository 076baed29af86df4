//! Laws of UNTIL and NEXT, each stated by the contract of a function that does nothing.
ghost use Rattle.eval_until.specs.NextView.{NextDueIsSettled};
ghost use Rattle.eval_until.specs.UntilLaws.{NoneYet, OneMore, PastTheBound, UntilIs};
ghost use Rattle.eval_until.specs.UntilLaws.{StartIs, StartLow, StartMore, StartRises};
ghost use Rattle.eval_until.specs.UntilView.{UntilDueIsSettled};

/// What the first positions decide of UNTIL goes on from position to position, up to the greatest
/// distance.
#[tactic(auto, using(crate::proofs::UntilLemmas::position_by_position))]
pub fn until_goes_on()
    ensures is { UntilIs }
    ensures none { NoneYet }
    ensures more { OneMore }
    ensures start_more { StartMore }
    ensures start_is { StartIs }
    ensures start_low { StartLow }
    ensures start_rises { StartRises }
    ensures past { PastTheBound }
{}

/// A position is due exactly where it is settled, for operands that are ready at the positions whose
/// tables were pushed.
#[tactic(auto, using(crate::proofs::DueLemmas::until_due_settled))]
pub fn until_due_is_settled()
    ensures { UntilDueIsSettled }
{}

/// A position of NEXT is due exactly where it is settled, for an operand that is ready at the positions
/// whose tables were pushed.
#[tactic(auto, using(crate::proofs::NextLemmas::next_due_settled))]
pub fn next_due_is_settled()
    ensures { NextDueIsSettled }
{}
