//! A row with its times as plain data.

use mfotl_model::Row;

/// A row with the times that are kept for it. What the times are is the caller's to say, and that they ascend.
#[derive(Drop)]
pub struct KeptRow {
    pub row: Row,
    pub times: Vec<u64>,
}
