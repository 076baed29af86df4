//! Examples that were worked out by hand, as theorems on the definitions. Each call does nothing: its
//! clauses are the examples.
ghost use Rattle.state_split.specs.Examples.{FarRowStays};

/// Rows of one variable at a change of its cut.
pub fn worked_cuts()
    ensures { FarRowStays }
{}
