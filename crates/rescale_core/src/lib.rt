//! The router between the log and the workers: what is read goes to workers, and their findings become verdicts. At a
//! change of strategy it hands the pieces of their states on, while reading goes on. A machine does all of it on one
//! thread, step by step; a driver is main's part where workers run on threads. The layers above open a `Driver` over a
//! `Router` and a hub of workers, read into it what the log has, let it turn by turn, and write the verdicts that it
//! emits. With a `Machine` tests go through the steps one by one.
#![tactic(auto)]

mod cell;
mod driver;
pub mod examples;
pub mod laws;
mod limits;
mod machine;
mod machine_start;
mod outstanding;
mod queue;
mod queueing;
mod room;
mod router;
mod router_start;
mod slot;
mod step;

pub use driver::{Driver, Turn};
pub use machine::Machine;
pub use rescale_worker::{BoxedPiece, BoxedStrategy, Entry, Item, Out, Seed, Worker};
pub use router::Router;
pub use step::{Applied, Step};
