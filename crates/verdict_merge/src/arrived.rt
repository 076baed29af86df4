//! Rows, as they came.

use crate::rows::Rows;

// Rows with their number in the order in which all came.
#[derive(Drop)]
pub(crate) struct Arrived {
    pub(crate) number: u64,
    pub(crate) rows: Rows,
}
