//! Rows over some of the variables.
use crate::row::Row;

/// A row that gives values to some variables: the one in place k of `row` is that of `cols[k]`.
#[derive(Clone, Copy)]
pub struct Partial<'a> {
    pub cols: &'a [u32],
    pub row: &'a Row,
}
