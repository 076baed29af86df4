//! The rows that UNTIL keeps as plain data.

use mfotl_model::Row;

/// The right operand held of a row at `place`, and the left one from `start` up to the position before.
#[derive(Clone, Copy, Drop)]
pub struct Mark {
    pub place: u64,
    pub start: u64,
}

/// A row over the right operand's columns, with its marks.
#[derive(Drop)]
pub struct KeptMarks {
    pub row: Row,
    pub marks: Vec<Mark>,
}

/// A row over the left operand's columns, with the position where its present run begins.
#[derive(Drop)]
pub struct KeptStart {
    pub row: Row,
    pub start: u64,
}
