//! Laws of the definitions, each the contract of a function.
ghost use Rattle.main_steps.specs.Laws.{ChangesOfThree, DueAtItsNumber, EachChangeInOrder, EachJustBefore};
ghost use Rattle.main_steps.specs.Laws.{EachPointOnce, NoneBehindTheLast};

/// A change is due just before the time-point of its number is read.
pub fn due_at_its_number()
    ensures { DueAtItsNumber }
{}

/// What is read of a log's time-points by a plan of changes: all of them, and each change just before the time-point of
/// its number.
pub fn changes_just_before()
    ensures points { EachPointOnce }
    ensures order { EachChangeInOrder }
    ensures timely { EachJustBefore }
    ensures last { NoneBehindTheLast }
{}

/// What is read of three time-points by a plan of four changes.
pub fn worked_plan()
    ensures { ChangesOfThree }
{}
