//! Time-points split among workers.
ghost use Rattle.std.specs.Prelude.{◌≡◌, ◌∷◌, [], IfOk, replicate};
ghost use Rattle.monitorable.specs.Atoms.{atoms_of};
ghost use Rattle.monitorable.specs.Cores.{core_form};
ghost use Rattle.event_splitter.specs.Parts.{parts_for};

use crate::spread::give_all;
use mfotl_model::{Db, TimePoint};
use monitorable::Core;
use slice_strategy::Slicer;
use std::alloc::{AllocError, Global};

fn empty_points(alloc: Global, count: u32, ts: u64) -> Result<Vec<TimePoint>, AllocError>
    ensures { IfOk result (λ points. points.items ≡ replicate count (record { ts = ts; db = [] })) }
{
    let mut points = Vec::with_capacity(alloc, count as usize)?;
    for _ in 0..count {
        points.push(TimePoint {
            ts,
            db: Db::new(alloc),
        })?;
    }
    Ok(points)
}

/// The time-point's part for each worker, in their order, also where it has no events: an event goes to
/// the workers that a row which it gives to an atom of the core may be of concern to.
pub fn split<S: Slicer>(
    alloc: Global,
    core: &Core,
    slicer: &S,
    point: &TimePoint,
) -> Result<Vec<TimePoint>, AllocError>
    ensures { IfOk result (λ points. points.items
        ≡ parts_for (S.count slicer.now) (S.region slicer.now) (atoms_of (core_form core.now)) point.now) }
{
    let mut points = empty_points(alloc, slicer.workers(), point.ts)?;
    let parts = points.as_mut_slice();
    give_all(alloc, core.atoms(), slicer, point.db.inserted(), parts)?;
    Ok(points)
}

/// The part of a time-point for the one worker that there is: the events that some atom stands for. They stay where
/// they are, and it takes no memory.
pub fn only_part<S: Slicer>(core: &Core, _slicer: &S, point: TimePoint) -> TimePoint
    requires one { S.count _slicer.now ≡ 1 }
    ensures { parts_for (S.count _slicer.now) (S.region _slicer.now) (atoms_of (core_form core.now)) point
        ≡ result ∷ [] }
{
    let TimePoint { ts, db } = point;
    TimePoint {
        ts,
        db: db.seen_by(core.atoms()),
    }
}
