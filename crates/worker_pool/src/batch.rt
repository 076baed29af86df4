//! How much main reads between two turns.
use mfotl_model::TimePoint;

// After so many time-points and events together main turns to the workers, so that they work while it reads on.
const BATCH: usize = 256;

// How much a time-point counts towards a batch.
fn size(point: &TimePoint) -> usize {
    point.db.inserted().len().saturating_add(1)
}

/// Counts the time-point towards the batch. Answers whether main takes a turn before it reads it, which ends a batch.
pub(crate) fn turns_before(batch: &mut usize, point: &TimePoint) -> bool {
    let turns = *batch >= BATCH;
    if turns {
        *batch = 0;
    }
    *batch = batch.saturating_add(size(point));
    turns
}
