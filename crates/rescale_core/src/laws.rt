//! Laws of worlds, as theorems on the definitions. Each call does nothing: its clause is the law.
ghost use Rattle.rescale_core.specs.Ends.{DriverCore, DriverEnds, DriverVerdicts, DriverWorlds, MachineEnds};
ghost use Rattle.rescale_core.specs.Ends.{MachineVerdicts, MachineWorlds, OpenedWorkers, RowsPartition, TurnKeeps};
ghost use Rattle.rescale_core.specs.Laws.{ReachedWorlds, VerdictStays};
ghost use Rattle.rescale_core.specs.Waiting.{WaitsFor};

/// In each world that steps reach from the first one, what each worker was handed fits, what it gave answers that,
/// and what was emitted are the first verdicts on all that was read.
pub fn reached_worlds()
    ensures { ReachedWorlds }
{}

/// So it is in each world that a machine stands for.
pub fn machine_worlds()
    ensures { MachineWorlds }
{}

/// The verdict on a settled position is the same behind all entries that are read later.
pub fn verdict_stays()
    ensures { VerdictStays }
{}

/// What a machine emitted so far are the first verdicts on all its entries, also on those that it hasn't read.
pub fn machine_verdicts()
    ensures { MachineVerdicts }
{}

/// What a driver emitted so far are the first verdicts on all that it reads, also later.
pub fn driver_verdicts()
    ensures { DriverVerdicts }
{}

/// Where a machine can do no step, it emitted all verdicts on all entries.
pub fn machine_ends()
    ensures { MachineEnds }
{}

/// A hub that is opened on a core's and strategy's workers, in order, is right for a driver.
pub fn opened_workers()
    ensures { OpenedWorkers }
{}

/// In each world that a driver's steps reach what was emitted are the first verdicts on all that was read.
pub fn driver_worlds()
    ensures { DriverWorlds }
{}

/// In the world that a turn reaches the same was read and emitted as before, and no more waits.
pub fn turn_keeps()
    ensures { TurnKeeps }
{}

/// A driver's core is its worlds'.
pub fn driver_core()
    ensures { DriverCore }
{}

/// What reading makes wait for a worker, where nothing else makes more wait.
pub fn waits_for()
    ensures { WaitsFor }
{}

/// Where a driver has ended, it emitted all verdicts on all that it read.
pub fn driver_ends()
    ensures { DriverEnds }
{}

/// What the workers say of a position is by owner a partition of its violations.
pub fn rows_partition()
    ensures { RowsPartition }
{}
