//! Rows with their entries, and where runs begin: what a window of UNTIL keeps. `eval_until` keeps one `RowEntries` and
//! one `RunStarts`, and tells them each position's tables.
#![tactic(auto)]

mod by_key;
mod entries;
mod entry_map;
mod level;
mod meeting;
mod ordered;
mod plain;
mod recalled;
mod row_entries;
mod row_set;
mod run_starts;
mod starts;

pub use entries::{Entries, Entry};
pub use plain::{kept_marks, kept_starts, rows_map, starts_map};
pub use recalled::{KeptMarks, KeptStart, Mark};
pub use row_entries::RowEntries;
pub use run_starts::RunStarts;
