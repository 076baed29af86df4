//! The state of a monitor: it takes time-points one by one, and gives the tables of the positions that
//! they settle.
#![tactic(auto)]

mod adding;
mod begin_filter;
mod begin_until;
mod compile;
mod conjunction;
mod constant;
mod kept_times;
pub mod laws;
mod monitor;
mod operators;
mod recording;
mod resume_nodes;
mod resume_windows;
mod stamps;
mod state;

pub use monitor::Monitor;
pub use monitor_nodes::Tables;
pub use state::{NodeData, Piece, SinceKept, State, UntilKept, WindowData};
