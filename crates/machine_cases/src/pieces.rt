//! What a worker keeps, and the pieces that its state is split into.
ghost use Rattle.std.specs.Prelude.{◌<◌};
ghost use Rattle.mfotl_model.specs.Strategies.{workers_of};

use crate::setting::Setting;
use crate::texts::{Case, Stop, halves, number, put};
use event_splitter::split;
use mfotl_model::{TimePoint, push_rows};
use monitor_state::{Monitor, NodeData, Piece, SinceKept, State, UntilKept, WindowData};
use monitorable::Core;
use relations::Table;
use slice_strategy::{Slicer, Strategy};
use state_split::split_state;
use std::alloc::{AllocError, Global};
use std::slice;

/// The rows that a worker keeps behind a time-point, and those of the pieces for the workers of a next strategy.
pub fn pieces(alloc: Global, setting: &Setting, case: &Case<'_>) -> Result<Vec<u8>, Stop> {
    let (next, rest) = halves(case.rest)?;
    let strategy = setting.strategy(alloc, case.strategy)?;
    let next = setting.strategy(alloc, next)?;
    pieces_at(alloc, setting, &strategy, &next, rest)
}

// The same of the worker and the time-point of a text.
fn pieces_at(
    alloc: Global,
    setting: &Setting,
    strategy: &Strategy,
    next: &Strategy,
    text: &str,
) -> Result<Vec<u8>, Stop> {
    let (worker, point) = halves(text)?;
    let worker = number(worker)?;
    if worker >= strategy.workers() {
        return Err(Stop::Malformed);
    }
    let monitor = monitor_behind(alloc, setting, strategy, worker, point)?;
    pieces_told(alloc, &monitor, strategy, worker, next)
}

// The rows that a worker's monitor keeps, and those of its pieces.
fn pieces_told(
    alloc: Global,
    monitor: &Monitor,
    strategy: &Strategy,
    worker: u32,
    next: &Strategy,
) -> Result<Vec<u8>, Stop>
    requires { worker < workers_of strategy.now }
{
    let mut told = kept(alloc, monitor)?;
    for piece in &split_state(alloc, monitor, strategy, worker, next, 1)? {
        put_piece(alloc, piece, &mut told)?;
    }
    Ok(told)
}

// The rows that a monitor keeps.
fn kept(alloc: Global, monitor: &Monitor) -> Result<Vec<u8>, Stop> {
    let state = monitor.state(alloc)?;
    let mut told = Vec::new(alloc);
    put(&mut told, "keeps")?;
    put_state(&mut told, &state)?;
    Ok(told)
}

// Puts whose piece it is, and all its rows.
fn put_piece(alloc: Global, piece: &Piece, told: &mut Vec<u8>) -> Result<(), Stop> {
    put(told, format!(in alloc; "; piece {}:", piece.to)?.as_str())?;
    Ok(put_state(told, &piece.state)?)
}

// The monitor of a worker behind its slice of a time-point.
fn monitor_behind(
    alloc: Global,
    setting: &Setting,
    strategy: &Strategy,
    worker: u32,
    point: &str,
) -> Result<Monitor, Stop> {
    let point = setting.point(alloc, point)?;
    let slices = split(alloc, &setting.core, strategy, &point)?;
    match slices.get(worker as usize) {
        Some(slice) => monitor_of(alloc, &setting.core, slice),
        None => Err(Stop::Malformed),
    }
}

// A monitor behind a first time-point.
fn monitor_of(alloc: Global, core: &Core, point: &TimePoint) -> Result<Monitor, Stop> {
    let mut monitor = Monitor::new(alloc, core)?;
    if monitor.taken() != 0 {
        return Err(Stop::Malformed);
    }
    let _tables = monitor.step(alloc, point)?;
    Ok(monitor)
}

// Puts all rows of a state.
fn put_state(told: &mut Vec<u8>, state: &State) -> Result<(), AllocError> {
    for node in &state.nodes {
        put_node(told, node)?;
    }
    Ok(())
}

fn put_node(told: &mut Vec<u8>, node: &NodeData) -> Result<(), AllocError> {
    match node {
        NodeData::Bare => Ok(()),
        NodeData::Join(join) => {
            for tables in &join.tables {
                put_tables(told, tables)?;
            }
            Ok(())
        }
        NodeData::Or(or) => {
            put_tables(told, &or.lefts)?;
            put_tables(told, &or.rights)
        }
        NodeData::Previous(previous) => put_tables(told, &previous.tables),
        NodeData::Next(next) => put_tables(told, &next.tables),
        NodeData::Window(window) => put_window(told, window),
        NodeData::Filter(tables, window) => {
            put_tables(told, tables)?;
            put_window(told, window)
        }
    }
}

fn put_window(told: &mut Vec<u8>, window: &WindowData) -> Result<(), AllocError> {
    match window {
        WindowData::Since(since) => put_since(told, since),
        WindowData::Until(until) => put_until(told, until),
    }
}

fn put_since(told: &mut Vec<u8>, since: &SinceKept) -> Result<(), AllocError> {
    put_tables(told, &since.kept.lefts)?;
    put_tables(told, &since.kept.rights)?;
    for kept in &since.kept.rows {
        push_rows(told, slice::from_ref(&kept.row))?;
    }
    Ok(())
}

fn put_until(told: &mut Vec<u8>, until: &UntilKept) -> Result<(), AllocError> {
    put_tables(told, &until.kept.lefts)?;
    put_tables(told, &until.kept.rights)?;
    for kept in &until.kept.starts {
        push_rows(told, slice::from_ref(&kept.row))?;
    }
    for kept in &until.kept.rows {
        push_rows(told, slice::from_ref(&kept.row))?;
    }
    Ok(())
}

fn put_tables(told: &mut Vec<u8>, tables: &[Table]) -> Result<(), AllocError> {
    for table in tables {
        push_rows(told, table.rows())?;
    }
    Ok(())
}
