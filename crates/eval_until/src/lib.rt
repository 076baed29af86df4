//! NEXT and UNTIL over the tables of their operands, which are pushed position by position. A node of `monitor_nodes`
//! keeps a state of one of them, and pulls what is due, or asks it for the rows that are wanted; `monitor_state` takes
//! plain data out of the states, and resumes them with it.
#![tactic(auto)]

mod ahead;
mod contents;
pub mod examples;
mod expiry;
pub mod laws;
mod next;
mod rebuild;
mod recalled;
mod until;
mod until_steps;

pub use next::NextState;
pub use recalled::{NextData, UntilData};
pub use until::UntilState;
pub use until_rows::{KeptMarks, KeptStart, Mark};
