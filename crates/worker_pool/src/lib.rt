//! Monitors a log with a pool of threads: the layer above opens the log and says what the end means.
#![tactic(auto)]

mod batch;
mod by_one;
mod following;
pub mod laws;
mod loop_end;
mod main_chunk;
mod main_loop;
mod monitoring;
mod opening;
mod plan;
mod preparing;
mod routing;

pub use lone_worker::End;
pub use monitoring::monitor;
pub use plan::Plan;
