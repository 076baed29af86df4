//! Rows with the times that are kept for them, in groups.
#![tactic(auto)]

mod few;
mod group;
mod group_rows;
mod groups;
mod hashed;
mod held;
mod kept_row;
mod keyed;
mod keys;
mod ordered;
mod packed_rows;
mod row_key;
mod times;

pub use groups::Groups;
pub use kept_row::KeptRow;
pub use ordered::OrderedGroup;
pub use packed_rows::{PackedRows, packed};
