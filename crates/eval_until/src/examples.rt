//! Examples that were worked out by hand, as theorems on the definitions.
ghost use Rattle.eval_until.specs.Examples.{MarkHasItsTime};

/// Does nothing: the clause is the time of one mark's entry.
pub fn worked_examples()
    ensures mark { MarkHasItsTime }
{}
