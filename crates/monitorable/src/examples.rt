//! Examples that were worked out by hand, as theorems on the definitions. Each call does nothing: its
//! clauses are the examples.
#![tactic(auto, unfolding(mfotl_model::specs::FreeVariables::fv, crate::specs::Fragment::fault_in, crate::specs::Fragment::bound_by, crate::specs::Fragment::needed_by, crate::specs::NodeCount::nodes, crate::specs::NormalForm::positive, crate::specs::NormalForm::negative))]

ghost use Rattle.monitorable.specs.Examples.{OneFaultOrNone, Counted, FirstOfTwoFaults};

/// Of two faults, the one that is told.
pub fn first_faults()
    ensures { FirstOfTwoFaults }
{}

/// What the fragment accepts, and what it doesn't.
pub fn accepted()
    ensures { OneFaultOrNone }
{}

/// How many nodes formulas have, and how many they may have.
pub fn counted()
    ensures { Counted }
{}
