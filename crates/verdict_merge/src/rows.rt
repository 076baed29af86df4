//! What a worker says of a time-point, and what is said of it in the end.

use mfotl_model::RowList;

/// What one worker says of a time-point: the violations that it owns. The generation is that of the time-point
/// which settled the verdict.
#[derive(Drop)]
pub struct Rows {
    pub point: u64,
    pub ts: u64,
    pub generation: u64,
    pub worker: u32,
    pub rows: RowList,
}

/// The verdict on a time-point: its number, its timestamp and its violations in ascending order.
#[derive(Drop)]
pub struct Verdict {
    pub point: u64,
    pub ts: u64,
    pub rows: RowList,
}

/// A generation of workers, and how many it has.
#[derive(Clone, Copy)]
pub(crate) struct Begun {
    pub(crate) generation: u64,
    pub(crate) workers: u32,
}
