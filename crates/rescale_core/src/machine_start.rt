//! How a machine begins.
ghost use Rattle.std.specs.Prelude.{◌≡◌, ◌≤◌, IfOk, Some, length, ℕ};
ghost use Rattle.monitorable.specs.Cores.{core_form};
ghost use Rattle.rescale_core.specs.Cells.{AreWithin, IsCellOf, IsMachineOf, workers_for};
ghost use Rattle.rescale_worker.specs.Lines.{AreSound, first_spot};
ghost use Rattle.rescale_core.specs.Routing.{IsRouterOf};
ghost use Rattle.rescale_worker.specs.Workers.{IsFor};
ghost use Rattle.rescale_core.specs.Handing.{nth};
ghost use Rattle.rescale_core.specs.Worlds.{first_world};
ghost use Rattle.mfotl_model.specs.Strategies.{workers_of};
ghost use Rattle.rescale_core.specs.declared.cell.Cell.{Cell as OneCell};

use crate::cell::Cell;
use crate::machine::Machine;
use crate::router::Router;
use monitorable::Core;
use rescale_worker::{Entry, Worker};
use slice_strategy::{Slicer, Strategy};
use std::alloc::{AllocError, Global};
use std::collections::VecDeque;

impl Machine {
    /// The machine that did nothing yet.
    pub fn start(
        alloc: Global,
        core: Core,
        strategy: Strategy,
        entries: Vec<Entry>,
    ) -> Result<Self, AllocError>
        requires fits { IsFor (core_form core) strategy }
        requires sound { AreSound (core_form core) (first_spot strategy) entries.items }
        ensures { IfOk result (λ machine.
            IsMachineOf machine entries.items (first_world (core_form core) strategy)) }
    {
        let (left, workers) = all_left(alloc, entries, strategy.workers())?;
        Machine::over(alloc, core, strategy, left, workers)
    }

    // The machine that did nothing yet, for what is left, with so many cells.
    fn over(
        alloc: Global,
        core: Core,
        strategy: Strategy,
        left: VecDeque<Entry>,
        workers: u32,
    ) -> Result<Self, AllocError>
        requires fits { IsFor (core_form core) strategy }
        requires sound { AreSound (core_form core) (first_spot strategy) left.items }
        requires wide { workers_of strategy ≤ workers }
        requires within { AreWithin workers left.items }
        ensures { IfOk result (λ machine.
            IsMachineOf machine left.items (first_world (core_form core) strategy)) }
    {
        let (router, cells) = first_parts(alloc, core, strategy, workers)?;
        Ok(Machine {
            router,
            cells,
            left,
            verdicts: Vec::new(alloc),
        })
    }
}

// The router, and a cell for each of so many workers.
fn first_parts(
    alloc: Global,
    core: Core,
    strategy: Strategy,
    workers: u32,
) -> Result<(Router, Vec<Cell>), AllocError>
    requires { IsFor (core_form core) strategy }
    ensures router { IfOk result (λ parts. IsRouterOf parts.0 (first_world (core_form core) strategy)) }
    ensures len { IfOk result (λ parts. length parts.1.items ≡ workers) }
    ensures cells { IfOk result (λ parts. (k : ℕ) (cell : OneCell) → nth parts.1.items k ≡ Some cell
        → IsCellOf (first_world (core_form core) strategy) k cell) }
{
    let cells = new_cells(alloc, &core, &strategy, workers)?;
    with_router(alloc, core, strategy, cells)
}

// The cells beside a router.
fn with_router(
    alloc: Global,
    core: Core,
    strategy: Strategy,
    cells: Vec<Cell>,
) -> Result<(Router, Vec<Cell>), AllocError>
    requires { IsFor (core_form core) strategy }
    ensures router { IfOk result (λ parts. IsRouterOf parts.0 (first_world (core_form core) strategy)) }
    ensures cells { IfOk result (λ parts. parts.1 ≡ cells) }
{
    let router = Router::start(alloc, core, strategy)?;
    Ok((router, cells))
}

// A cell for each of so many workers.
fn new_cells(
    alloc: Global,
    core: &Core,
    strategy: &Strategy,
    workers: u32,
) -> Result<Vec<Cell>, AllocError>
    requires { IsFor (core_form core.now) strategy.now }
    ensures len { IfOk result (λ cells. length cells.items ≡ workers) }
    ensures cells { IfOk result (λ cells. (k : ℕ) (cell : OneCell) → nth cells.items k ≡ Some cell
        → IsCellOf (first_world (core_form core.now) strategy.now) k cell) }
{
    let mut cells = Vec::new(alloc);
    for k in 0..workers {
        let cell = new_cell(alloc, core, strategy, k)?;
        cells.push(cell)?;
    }
    Ok(cells)
}

// The cell of a worker that was handed nothing.
fn new_cell(alloc: Global, core: &Core, strategy: &Strategy, k: u32) -> Result<Cell, AllocError>
    requires { IsFor (core_form core.now) strategy.now }
    ensures { IfOk result (λ cell. IsCellOf (first_world (core_form core.now) strategy.now) k cell) }
{
    let worker = Worker::start(alloc, core, strategy, k)?;
    Ok(Cell {
        worker,
        items: VecDeque::new(alloc),
        taken: 0,
        outs: Vec::new(alloc),
    })
}

// The entries, to be taken one by one, and how many workers the strategies have at most.
fn all_left(
    alloc: Global,
    entries: Vec<Entry>,
    first: u32,
) -> Result<(VecDeque<Entry>, u32), AllocError>
    ensures left { IfOk result (λ parts. parts.0.items ≡ entries.items) }
    ensures wide { IfOk result (λ parts. first ≤ parts.1) }
    ensures within { IfOk result (λ parts. AreWithin parts.1 entries.items) }
{
    let mut left = VecDeque::new(alloc);
    let mut most = first;
    for entry in entries {
        most = most.max(workers_for(&entry));
        left.push_back(entry)?;
    }
    Ok((left, most))
}

// How many workers the strategy has that the entry changes to.
fn workers_for(entry: &Entry) -> u32
    ensures { result ≡ workers_for entry.now }
{
    match entry {
        Entry::Point(_) => 0,
        Entry::Change(strategy) => strategy.workers(),
    }
}
