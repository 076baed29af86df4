//! The pieces of a worker's new state, in any order, united to the state of its monitor.
#![tactic(auto)]

mod keyed;
pub mod laws;
mod marks;
mod merging;
mod nodes;
mod runs_and_marks;
mod since_rows;
mod states;
mod tables;
mod times;
mod windows;

pub use merging::Merging;
pub use runs_and_marks::{united_marks, united_starts};
pub use since_rows::united_times;
pub use states::united_states;
