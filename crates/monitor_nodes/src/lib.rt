//! The nodes of a monitor, and what each does with a time-point.
#![tactic(auto)]

mod exists;
mod filter;
mod join;
mod lookup;
mod next;
mod node;
mod or;
mod ordering;
mod previous;
mod since;
mod stack;
mod tables;
mod until;
mod window;

pub use filter::FilterState;
pub use node::Node;
pub use tables::Tables;
pub use window::Window;
