//! The verdicts of many workers put together: one for each time-point, in order.
#![tactic(auto)]

mod arrived;
pub mod examples;
mod gather;
mod group;
pub mod laws;
mod merge;
mod rows;
mod slots;
mod text;
mod waiting;

pub use gather::Gather;
pub use rows::{Rows, Verdict};
pub use text::line;
