//! Laws of cutting, as theorems on the definitions. Each call does nothing: its clause is the law.
ghost use Rattle.monitor_state.specs.StateLaws.{CutIsPiece, CutStands};
ghost use Rattle.state_split.specs.Splits.{SplitsStand, StrategiesCut};

/// A state cut to a part of its region stands for that part, has nothing outside it, and keeps the rule of states.
pub fn cut_stands()
    ensures { CutStands }
{}

/// What a worker keeps, cut to the rows near to a worker of the next strategy too, is a piece.
pub fn cut_is_piece()
    ensures { CutIsPiece }
{}

/// Pieces that were split by two strategies are what the workers of the next one are handed.
pub fn strategies_cut()
    ensures { StrategiesCut }
{}

/// The pieces that a state is split into stand for what the monitor stands for.
pub fn splits_stand()
    ensures { SplitsStand }
{}
