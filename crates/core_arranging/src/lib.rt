//! A core made ready for evaluation: the windows of a conjunction go to its end, where they are asked for the rows of
//! the other conjuncts, and what it denies is asked for few rows. The layers above make nodes of what `posed` answers.
#![tactic(auto)]

mod arranging;
mod boxes;
mod chains;
pub mod laws;
mod posing;
mod windows;

pub use posing::posed;
pub use windows::{is_window, some_among, without_not};
