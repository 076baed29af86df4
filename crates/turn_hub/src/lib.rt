//! Cells that main and the hands of other threads work on by turns. Each cell has a work, to which main hands
//! items over, and which gives outs back. Whatever the threads do, what the work tells (`Work`: `told`) holds of all
//! items that were handed over and all outs that came back.
#![tactic(auto)]

mod close;
mod hub;
pub mod laws;
mod open;
mod places;
mod plays;
mod serve;
mod swap;
mod turns;
mod view;
mod work;

pub use hub::{Hand, Hub, Main, Served, Swap};
pub use view::{Cell, Line, View};
pub use work::Work;
