//! Tables of rows, and the operations of relational algebra on them.
#![tactic(auto)]

mod antijoin;
mod choosing;
mod columns;
mod entry;
pub mod examples;
mod hashed;
mod index;
mod join;
mod joined;
mod matched;
mod pairs;
mod projection;
mod pushed;
mod rows;
mod search;
mod steps;
mod table;
mod union;

pub use columns::{Columns, all_among, common, part_of};
pub use index::Index;
pub use pushed::{copied_tables, first_pushed};
pub use steps::Steps;
pub use table::Table;
