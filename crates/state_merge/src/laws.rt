//! Laws of uniting and adopting, as theorems on the definitions. Each call does nothing: its clause is the law.
ghost use Rattle.monitor_state.specs.StateLaws.{AdoptMerges, AllMerged, UnionStands};
ghost use Rattle.state_merge.specs.Fitting.{PiecesFit, StatesFit};

/// Two states of one log, united, stand for it in both regions together, store nothing outside them, and keep
/// the rule of states.
pub fn union_stands()
    ensures { UnionStands }
{}

/// Adopting one piece more, in any order.
pub fn adopt_merges()
    ensures { AdoptMerges }
{}

/// The pieces of all workers are what the next strategy's worker goes on from.
pub fn all_merged()
    ensures { AllMerged }
{}

/// States of one log, and so the pieces of its workers, can be united.
pub fn pieces_fit()
    ensures states { StatesFit }
    ensures pieces { PiecesFit }
{}
