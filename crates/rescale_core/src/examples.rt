//! Examples that were worked out by hand, as theorems on the definitions. Each call does nothing: its
//! clauses are the examples.
ghost use Rattle.rescale_core.specs.Examples.{ReadyAtAChange, RoomForThousand};

/// A change from two workers to one, between two time-points.
pub fn worked_change()
    ensures { ReadyAtAChange }
{}

/// How many items may stand in a queue.
pub fn worked_room()
    ensures { RoomForThousand }
{}
