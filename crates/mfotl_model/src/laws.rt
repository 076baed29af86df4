//! Laws of formulas, tables and regions, as theorems on the definitions. Each call does nothing: its
//! clause is the law.
ghost use Rattle.mfotl_model.specs.Laws.{BothPass, CountedSettled, EverywherePasses, ExactBehind};
ghost use Rattle.mfotl_model.specs.Laws.{ExactWithin, FrontNeverFalls, NextUnsettled, SliceSees, StrategyPasses};

/// The rows that are near to a worker pass on to their parts, under each strategy.
pub fn strategy_passes()
    ensures { StrategyPasses }
{}

/// Regions can be made of others: of all rows, and of those that are in two.
pub fn regions_pass()
    ensures everywhere { EverywherePasses }
    ensures both { BothPass }
{}

/// A region's slice is enough for its rows.
pub fn slice_sees()
    ensures { SliceSees }
{}

/// Exact tables stay exact for a smaller region, and with further tables behind them.
pub fn tables_stay_exact()
    ensures within { ExactWithin }
    ensures behind { ExactBehind }
{}

/// The settled positions are those below their count, up to the first that isn't.
pub fn settled_positions_are_counted()
    ensures below { CountedSettled }
    ensures next { NextUnsettled }
{}

/// A log with timestamps that never fall has them up to each of its time-points.
pub fn front_never_falls()
    ensures { FrontNeverFalls }
{}
