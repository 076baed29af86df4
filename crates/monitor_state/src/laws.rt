//! Laws of a monitor's steps and of its state, each stated by the contract of a function that does nothing.
ghost use Rattle.monitor_state.specs.Laws.{LoneWorkerSteps, PolicyViolations, SliceIsEnough, TablesAreViolations};
ghost use Rattle.monitor_state.specs.StateLaws.{PartStands};

/// A worker needs no more of a time-point than its region's slice.
pub fn slice_is_enough()
    ensures { SliceIsEnough }
{}

/// What a step takes for granted holds for one worker alone.
pub fn lone_worker_steps()
    ensures { LoneWorkerSteps }
{}

/// The tables that one worker alone gives are the violations of the policy.
pub fn tables_are_violations()
    ensures { TablesAreViolations }
{}

/// A state that stands for a log in a region stands for it in each part of that region.
pub fn part_stands()
    ensures { PartStands }
{}

/// The violations that verdicts speak of are the policy's.
pub fn policy_violations()
    ensures { PolicyViolations }
{}
