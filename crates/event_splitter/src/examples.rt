//! Examples that were worked out by hand, as theorems on the definitions. Each call does nothing: its
//! clauses are the examples.
ghost use Rattle.event_splitter.specs.Examples.{CutInTwo};

/// The parts of one time-point.
pub fn worked_parts()
    ensures { CutInTwo }
{}
