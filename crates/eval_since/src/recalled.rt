//! The states of PREVIOUS and SINCE as plain data.

use relations::Table;
use row_times::KeptRow;

/// What a state of SINCE keeps, apart from its configuration, its positions' times and the time of the
/// position pulled last. Its rows are over the right operand's columns, each with times at which the right
/// operand held of it and from which the left one has held on.
#[derive(Drop)]
pub struct SinceData {
    pub pulled: u64,
    pub lefts: Vec<Table>,
    pub rights: Vec<Table>,
    pub rows: Vec<KeptRow>,
}

/// What a state of PREVIOUS keeps, apart from its configuration, its positions' times and the time of
/// the position pulled last.
#[derive(Drop)]
pub struct PrevData {
    pub pulled: u64,
    pub tables: Vec<Table>,
}
