//! Examples whose rows were worked out by hand, as theorems on the definitions.
ghost use Rattle.relations.specs.Examples.{AntijoinLeavesOut, ChosenWhereItFails, ChosenWhereItHolds};
ghost use Rattle.relations.specs.Examples.{JoinAgreesInY, KeyFindsBoth, KeyFindsNone, ProjectionToY, UnionWithItself};

/// Does nothing: each clause is what one operation gives.
#[tactic(auto, unfolding(mfotl_model::specs::Tables::part, crate::specs::Operations::agree, crate::specs::Operations::chosen, crate::specs::Operations::combined, crate::specs::Operations::pairs, crate::specs::Operations::pairs_of))]
pub fn worked_examples()
    ensures join { JoinAgreesInY }
    ensures antijoin { AntijoinLeavesOut }
    ensures project { ProjectionToY }
    ensures union { UnionWithItself }
    ensures select { ChosenWhereItHolds }
    ensures deselect { ChosenWhereItFails }
    ensures key { KeyFindsBoth }
    ensures no_key { KeyFindsNone }
{}
