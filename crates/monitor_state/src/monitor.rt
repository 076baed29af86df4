//! The monitor.
ghost use Rattle.std.specs.Prelude.{◌≡◌, ◌^◌, ◌<◌, ◌≤◌, ◌+◌, ◌-◌, ◌++◌, ◌∷◌, [], IfOk, OnOk, drop, length, slice_index};
ghost use Rattle.mfotl_model.specs.Exact.{View};
ghost use Rattle.monitorable.specs.Cores.{core_form};
ghost use Rattle.monitor_state.specs.Beginnings.{Begins};
ghost use Rattle.monitor_state.specs.Going.{AllAdvance, FirstAdvance};
ghost use Rattle.monitor_state.specs.MonitorView.{monitor_of};
ghost use Rattle.monitor_state.specs.Resuming.{Resumes};
ghost use Rattle.monitor_state.specs.Stands.{Stands};
ghost use Rattle.monitor_state.specs.StateRules.{StateRule};
ghost use Rattle.monitor_state.specs.StateStands.{StateStands};
ghost use Rattle.monitor_state.specs.Steps.{Steps};

use crate::compile::begun_nodes;
use crate::kept_times::KeptTimes;
use crate::recording::nodes_data;
use crate::resume_nodes::nodes_resumed;
use crate::stamps::{longest, times_behind};
use crate::state::State;
use mfotl_model::{Row, TimePoint};
use monitor_nodes::{Node, Tables};
use monitorable::Core;
use std::alloc::{AllocError, Global};
use std::collections::VecDeque;

/// A monitor of a core. Contracts see it through `monitor_of`.
#[derive(Drop)]
pub struct Monitor {
    core: Core,
    taken: u64,
    given: u64,
    first: u64,
    times: VecDeque<u64>,
    nodes: Vec<Node>,
    // Room for the nodes' tables while a time-point is taken.
    stack: Vec<Tables>,
}

impl Monitor {
    /// The monitor that took nothing yet.
    pub fn new(alloc: Global, core: &Core) -> Result<Self, AllocError>
        ensures core { IfOk result (λ monitor. (monitor_of monitor).core ≡ core_form core.now) }
        ensures begins { IfOk result (λ monitor. Begins (core_form core.now) (monitor_of monitor).state) }
    {
        let nodes = begun_nodes(alloc, core.root())?;
        let core = core.copy(alloc)?;
        Ok(Monitor {
            core,
            taken: 0,
            given: 0,
            first: 0,
            times: VecDeque::new(alloc),
            nodes,
            stack: Vec::new(alloc),
        })
    }

    /// How many time-points were taken.
    pub fn taken(&self) -> u64
        ensures { result ≡ (monitor_of self.now).state.taken }
    {
        self.taken
    }

    /// How many tables were given, so that the next one is that of this position.
    pub fn given(&self) -> u64
        ensures { result ≡ (monitor_of self.now).state.given }
    {
        self.given
    }

    /// The timestamp of a position whose table the last step gave, or of a later one; behind `resume`, of one whose
    /// timestamp the data has.
    pub fn time_at(&self, place: u64) -> u64
        requires kept { (monitor_of self.now).state.first ≤ place }
        requires taken { place - (monitor_of self.now).state.first < length (monitor_of self.now).state.times }
        ensures { result ≡ slice_index (monitor_of self.now).state.times (place - (monitor_of self.now).state.first) }
    {
        self.times[(place - self.first) as usize]
    }

    /// What the monitor keeps, as plain data.
    pub fn state(&self, alloc: Global) -> Result<State, AllocError>
        ensures rule { IfOk result (λ state. (view : View) →
            Stands view (monitor_of self.now).core (monitor_of self.now).state →
            StateRule (monitor_of self.now).core state) }
        ensures stands { IfOk result (λ state. (view : View) →
            Stands view (monitor_of self.now).core (monitor_of self.now).state →
            StateStands view (monitor_of self.now).core state) }
    {
        let nodes = nodes_data(alloc, self.nodes.as_slice())?;
        let past = self.given.saturating_sub(self.first);
        let own = times_behind(alloc, &self.times, past)?;
        let times = longest(alloc, self.nodes.as_slice(), own)?;
        Ok(State {
            taken: self.taken,
            given: self.given,
            times,
            nodes,
        })
    }

    /// The monitor of a core that goes on from what another one kept.
    pub fn resume(alloc: Global, core: Core, state: State) -> Result<Self, AllocError>
        requires rule { StateRule (core_form core) state }
        ensures core { IfOk result (λ monitor. (monitor_of monitor).core ≡ core_form core) }
        ensures first { IfOk result (λ monitor.
            (monitor_of monitor).state.first ≡ state.taken - length state.times.items) }
        ensures stands { IfOk result (λ monitor. Resumes (core_form core) state (monitor_of monitor).state) }
    {
        let fresh = begun_nodes(alloc, core.root())?;
        let State {
            taken,
            given,
            times,
            nodes,
        } = state;
        let first = taken.saturating_sub(times.len() as u64);
        let kept = KeptTimes {
            first,
            stamps: times.as_slice(),
        };
        let nodes = nodes_resumed(alloc, fresh, &kept, nodes)?;
        Ok(Monitor {
            core,
            taken,
            given,
            first,
            times: VecDeque::from_vec(times),
            nodes,
            stack: Vec::new(alloc),
        })
    }

    /// Takes a time-point, and gives the tables of the positions that are settled now and weren't
    /// before, in order. After an error the monitor is of no further use.
    pub fn step(&mut self, alloc: Global, point: &TimePoint) -> Result<Tables, AllocError>
        requires { (monitor_of self.old).state.taken < 2 ^ 63 }
        ensures core { OnOk result ((monitor_of self.new).core ≡ (monitor_of self.old).core) }
        ensures taken { OnOk result ((monitor_of self.new).state.taken ≡ (monitor_of self.old).state.taken + 1) }
        ensures first { OnOk result ((monitor_of self.new).state.first ≡ (monitor_of self.old).state.given) }
        ensures steps { IfOk result (Steps (monitor_of self.old).core (monitor_of self.old).state point.now
            (monitor_of self.new).state) }
    {
        let past = self.given.saturating_sub(self.first);
        keep_time(&mut self.times, past, point.ts)?;
        let tables = advanced(alloc, &mut self.nodes, &mut self.stack, point)?;
        self.first = self.given;
        self.given = self.given.saturating_add(tables.len() as u64);
        self.taken += 1;
        Ok(tables)
    }

    /// Takes back the rows of a table that the monitor gave and that nobody asks for any more: where the core is an
    /// atom, the next table's rows stand in their memory.
    pub fn take_back(&mut self, rows: Vec<Row>)
        ensures { monitor_of self.new ≡ monitor_of self.old }
    {
        if let Some(node) = self.nodes.last_mut() {
            node.take_back(rows);
        }
    }
}

// The times without the first ones, and with one more.
fn keep_time(times: &mut VecDeque<u64>, past: u64, ts: u64) -> Result<(), AllocError>
    ensures { OnOk result (times.new.items ≡ drop past times.old.items ++ ts ∷ []) }
{
    for _place in 0..past {
        let _ = times.pop_front();
    }
    times.push_back(ts)?;
    Ok(())
}

// All nodes take the time-point, one after the other. The last one's tables are the core's, and aren't put on the
// stack. What lies there before is dropped.
fn advanced(
    alloc: Global,
    nodes: &mut Vec<Node>,
    stack: &mut Vec<Tables>,
    point: &TimePoint,
) -> Result<Tables, AllocError>
    ensures { IfOk result (AllAdvance nodes.old.items point.now nodes.new.items) }
{
    stack.clear();
    match nodes.split_last_mut() {
        Some((last, before)) => {
            advance_before(alloc, before, stack, point)?;
            last.advance(alloc, point, stack)
        }
        None => Ok(Tables::new()),
    }
}

// The nodes before the last one take the time-point, one after the other, and leave their tables on the stack.
fn advance_before(
    alloc: Global,
    nodes: &mut [Node],
    stack: &mut Vec<Tables>,
    point: &TimePoint,
) -> Result<(), AllocError>
    ensures { OnOk result (FirstAdvance nodes.old stack.old.items point.now nodes.new stack.new.items) }
{
    for node in nodes.iter_mut() {
        let tables = node.advance(alloc, point, stack)?;
        stack.push(tables)?;
    }
    Ok(())
}
