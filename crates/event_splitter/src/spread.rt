//! An event put into the parts of the workers that it concerns.
ghost use Rattle.std.specs.Prelude.{◌≡◌, ◌≤◌, [], OnOk, length, ℕ};
ghost use Rattle.mfotl_model.specs.Ascending.{ascending};
ghost use Rattle.mfotl_model.specs.Events.{event_cmp};
ghost use Rattle.event_splitter.specs.Parts.{parts_for, with_event};
ghost use Rattle.event_splitter.specs.Readings.{earlier, readings_of, some_near};
ghost use Rattle.slice_strategy.specs.Limits.{max_workers};
ghost use Rattle.slice_strategy.specs.Sharing.{IsFirst, given_to};

use crate::reading::{Reading, readings};
use mfotl_model::{Atom, Event, TimePoint};
use slice_strategy::Slicer;
use std::alloc::{AllocError, Global};

fn earlier(found: Option<u32>, other: Option<u32>) -> Option<u32>
    ensures { result ≡ earlier found other }
{
    match found {
        None => other,
        Some(first) => match other {
            None => Some(first),
            Some(second) => Some(first.min(second)),
        },
    }
}

/// The first worker from `from` on that something which the event gives may be of concern to.
fn next_worker<S: Slicer>(slicer: &S, from: u32, readings: &[Reading]) -> Option<u32>
    ensures { IsFirst (λ k. some_near readings.now (S.region slicer.now k)) from (S.count slicer.now) result }
{
    let mut found = None;
    for reading in readings {
        found = earlier(found, reading.next_near(slicer, from));
    }
    found
}

/// Puts the event into the parts of the workers that something which it gives may be of concern to.
fn spread<S: Slicer>(
    alloc: Global,
    slicer: &S,
    event: &Event,
    readings: &[Reading],
    parts: &mut [TimePoint],
) -> Result<(), AllocError>
    requires each { length parts.old ≡ S.count slicer.now }
    requires few { S.count slicer.now ≤ max_workers }
    ensures { OnOk result (parts.new
        ≡ given_to (with_event event.now) (λ k. some_near readings.now (S.region slicer.now k)) 0 parts.old) }
{
    let mut from = 0;
    while let Some(k) = next_worker(slicer, from, readings) {
        parts[k as usize].db.insert(event.copy(alloc)?)?;
        from = k + 1;
    }
    Ok(())
}

fn give<S: Slicer>(
    alloc: Global,
    atoms: &[Atom],
    slicer: &S,
    event: &Event,
    parts: &mut [TimePoint],
) -> Result<(), AllocError>
    requires each { length parts.old ≡ S.count slicer.now }
    requires few { S.count slicer.now ≤ max_workers }
    ensures { OnOk result (parts.new
        ≡ given_to (with_event event.now) (λ k. some_near (readings_of atoms.now event.now) (S.region slicer.now k)) 0
        parts.old) }
{
    let readings = readings(alloc, atoms, event)?;
    spread(alloc, slicer, event, readings.as_slice(), parts)
}

/// Puts each event into the parts of the workers that a row which it gives to an atom may be of concern to.
pub(crate) fn give_all<S: Slicer>(
    alloc: Global,
    atoms: &[Atom],
    slicer: &S,
    events: &[Event],
    parts: &mut [TimePoint],
) -> Result<(), AllocError>
    requires each { length parts.old ≡ S.count slicer.now }
    requires few { S.count slicer.now ≤ max_workers }
    ensures { OnOk result ((ts : ℕ)
        → parts.old ≡ parts_for (S.count slicer.now) (S.region slicer.now) atoms.now (record { ts = ts; db = [] })
        → parts.new ≡ parts_for (S.count slicer.now) (S.region slicer.now) atoms.now
        (record { ts = ts; db = ascending event_cmp events.now })) }
{
    for event in events {
        give(alloc, atoms, slicer, event, parts)?;
    }
    Ok(())
}
