//! Worked texts, with what the definitions give for each.
#![tactic(auto, unfolding(crate::proofs::ExampleWords::whole_reading))]

ghost use Rattle.mfotl_parse.specs.Examples.{FaultExamples, ClashExamples, FormulaExamples, NameExamples};
ghost use Rattle.mfotl_parse.specs.Examples.{DepthExamples, BoundExamples, NodeExamples, OrderExamples};

/// Texts with the first fault of each.
pub fn fault_examples()
    ensures { FaultExamples }
{}

/// Texts in which sorts clash.
pub fn clash_examples()
    ensures { ClashExamples }
{}

/// Texts with the formula of each.
pub fn formula_examples()
    ensures { FormulaExamples }
{}

/// Texts with the variables that their names stand for.
pub fn name_examples()
    ensures { NameExamples }
{}

/// Texts at the limit of what may be open at once.
pub fn depth_examples()
    ensures { DepthExamples }
{}

/// Texts with a bound that is too long.
pub fn bound_examples()
    ensures { BoundExamples }
{}

/// Texts behind as many nodes as there may be.
pub fn node_examples()
    ensures { NodeExamples }
{}

/// Texts of which one token shows two faults.
pub fn order_examples()
    ensures { OrderExamples }
{}
