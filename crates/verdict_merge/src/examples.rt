//! Examples that were worked out by hand, as theorems on the definitions. Each call does nothing: its
//! clauses are the examples.
ghost use Rattle.verdict_merge.specs.Examples.{BothAreThere, NextIsComplete, NoneBegun, OneIsMissing};
ghost use Rattle.verdict_merge.specs.Examples.{MergedRowsInOrder, SameWorker, VerdictComes};

/// Two time-points with workers of two generations.
pub fn worked_gathers()
    ensures one_is_missing { OneIsMissing }
    ensures both_are_there { BothAreThere }
    ensures rows_in_order { MergedRowsInOrder }
    ensures verdict_comes { VerdictComes }
    ensures next_is_complete { NextIsComplete }
    ensures none_begun { NoneBegun }
    ensures same_worker { SameWorker }
{}
