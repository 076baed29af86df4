//! What main does step by step while it monitors a log with other workers: it reads a time-point behind the changes
//! that are due before it (`route`), and takes turns with the workers until all lines are written (`drain`). The layer
//! above reads the log and begins and ends the run.
#![tactic(auto)]

mod entries;
mod hands;
pub mod laws;
mod rounds;
mod schedule;
mod turns;

pub use entries::route;
pub use hands::{LoopContext, WorkerHand, WorkerHub};
pub use schedule::{Schedule, most_workers};
pub use turns::drain;
