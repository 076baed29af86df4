//! The monitor's top call: words, signature, policy, strategy, changes and log in; verdict lines, a fault line
//! and a status out. The programs above make its inputs and its sinks (real ones are `RealInputs` and `RealSink`), call
//! `run`, and end with the number of the status.
#![tactic(auto)]

mod changes_file;
mod check;
mod checked_policy;
mod commands;
mod demo;
mod demo_end;
pub mod demo_laws;
mod division;
mod fault_lines;
pub mod laws;
mod limits;
mod line;
mod loading;
mod monitoring;
mod refusal;
mod running;
mod status;
mod strategy_text;
mod task;

pub use real_outside::{RealInputs, RealSink};
pub use running::run;
pub use status::Status;
