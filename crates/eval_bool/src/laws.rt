//! Laws of conjunctions and of OR, each stated by the contract of a function that does nothing.
ghost use Rattle.eval_bool.specs.Laws.{NumberedOn, TestsHold};

/// The tests of a conjunction hold exactly where each of its comparisons comes out as wanted.
#[tactic(auto, using(crate::proofs::LawLemmas::tests_hold))]
pub fn tests_hold()
    ensures { TestsHold }
{}

/// A pull of OR leaves the positions of the tables to come as they are.
#[tactic(auto, using(crate::proofs::LawLemmas::numbered_on))]
pub fn pull_numbers_on()
    ensures { NumberedOn }
{}
