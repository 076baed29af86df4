//! Reads the time-points of a log, one at a call, up to its first fault: the monitor above takes each as
//! soon as it is complete.
#![tactic(auto)]

mod cursor;
mod demo_draws;
mod demo_event;
mod demo_texts;
mod fault;
mod found;
mod grammar;
mod groups;
pub mod laws;
mod limits;
mod next;
mod partial;
mod plain_tokens;
mod plain_values;
mod reader;
mod recent_texts;
mod short_numbers;
mod stage;
mod stamps;
mod steps;
mod straight;
mod stretch;
mod values;

pub use demo_texts::{Demo, generate};
pub use fault::LogFault;
pub use limits::Limits;
pub use next::Next;
pub use reader::LogReader;
