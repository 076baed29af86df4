//! PREVIOUS and SINCE over the tables of their operands, which are pushed position by position.
#![tactic(auto)]

mod contents;
mod expiry;
mod keys;
mod latest_time;
pub mod laws;
mod previous;
mod rebuild;
mod recalled;
mod since;
mod since_steps;
mod window;

pub use previous::PrevState;
pub use recalled::{PrevData, SinceData};
pub use since::SinceState;
