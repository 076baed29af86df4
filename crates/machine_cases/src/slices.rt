//! What a strategy makes of the events of a time-point.
ghost use Rattle.std.specs.Prelude.{◌≡◌, ◌<◌, length};

use crate::setting::Setting;
use crate::texts::{Case, Stop, put};
use event_splitter::split;
use mfotl_model::{Event, TimePoint, Value, push_rows};
use slice_strategy::{Slicer, Strategy};
use std::alloc::Global;
use std::slice;

/// How many workers there are, and of each event's values, taken as those of all free variables, the parts and the
/// owner.
pub fn owners(alloc: Global, setting: &Setting, case: &Case<'_>) -> Result<Vec<u8>, Stop> {
    let strategy = setting.strategy(alloc, case.strategy)?;
    let point = setting.point(alloc, case.rest)?;
    owners_told(alloc, setting, &strategy, point.db.inserted())
}

fn owners_told(
    alloc: Global,
    setting: &Setting,
    strategy: &Strategy,
    events: &[Event],
) -> Result<Vec<u8>, Stop>
    requires { length strategy.now ≡ length setting.now.policy.vars }
{
    let mut told = Vec::new(alloc);
    let workers = strategy.workers();
    put(&mut told, format!(in alloc; "{workers} workers")?.as_str())?;
    for event in events {
        put_owner(alloc, setting, strategy, event, &mut told)?;
    }
    Ok(told)
}

fn put_owner(
    alloc: Global,
    setting: &Setting,
    strategy: &Strategy,
    event: &Event,
    told: &mut Vec<u8>,
) -> Result<(), Stop>
    requires { length strategy.now ≡ length setting.now.policy.vars }
{
    let values = event.args.values();
    if values.len() != setting.policy.vars.as_slice().len() {
        return Err(Stop::Malformed);
    }
    put(told, ";")?;
    push_rows(told, slice::from_ref(&event.args))?;
    put_parts(alloc, strategy, values, told)?;
    let owner = strategy.owner(&event.args);
    put(told, format!(in alloc; ", worker {owner}")?.as_str())
}

// Puts the part of the value of each variable.
fn put_parts(
    alloc: Global,
    strategy: &Strategy,
    values: &[Value],
    told: &mut Vec<u8>,
) -> Result<(), Stop>
    requires { length strategy.now ≡ length values.now }
{
    let Ok(width) = u32::try_from(values.len()) else {
        return Err(Stop::Malformed);
    };
    put(told, ": parts")?;
    for variable in 0..width {
        put_part(alloc, strategy, variable, &values[variable as usize], told)?;
    }
    Ok(())
}

fn put_part(
    alloc: Global,
    strategy: &Strategy,
    variable: u32,
    value: &Value,
    told: &mut Vec<u8>,
) -> Result<(), Stop>
    requires { variable < length strategy.now }
{
    let part = strategy.part(variable, value);
    put(told, format!(in alloc; " {part}")?.as_str())
}

/// The events that each worker gets, each as its predicate's number and its values.
pub fn slices(alloc: Global, setting: &Setting, case: &Case<'_>) -> Result<Vec<u8>, Stop> {
    let strategy = setting.strategy(alloc, case.strategy)?;
    let point = setting.point(alloc, case.rest)?;
    let slices = split(alloc, &setting.core, &strategy, &point)?;
    slices_told(alloc, slices.as_slice())
}

fn slices_told(alloc: Global, slices: &[TimePoint]) -> Result<Vec<u8>, Stop> {
    let mut told = Vec::new(alloc);
    for (worker, slice) in slices.iter().enumerate() {
        put_slice(alloc, worker, slice, &mut told)?;
    }
    Ok(told)
}

// Puts the events of a worker behind those of the workers before it.
fn put_slice(
    alloc: Global,
    worker: usize,
    slice: &TimePoint,
    told: &mut Vec<u8>,
) -> Result<(), Stop> {
    let between = if worker == 0 { "" } else { "; " };
    put(
        told,
        format!(in alloc; "{between}worker {worker}:")?.as_str(),
    )?;
    put_events(alloc, slice.db.inserted(), told)
}

fn put_events(alloc: Global, events: &[Event], told: &mut Vec<u8>) -> Result<(), Stop> {
    for event in events {
        put(told, format!(in alloc; " {}", event.pred)?.as_str())?;
        push_rows(told, slice::from_ref(&event.args))?;
    }
    Ok(())
}
