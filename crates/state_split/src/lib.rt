//! The state of a worker cut into pieces, one for each worker of the next strategy.
#![tactic(auto)]

mod both;
pub mod examples;
mod kept;
pub mod laws;
mod nodes;
mod rows;
mod shares;
mod sorter;
mod split;
mod tables;
mod windows;

pub use split::split_state;
