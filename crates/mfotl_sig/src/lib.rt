//! Reads a signature: the readers of policies and logs above find each predicate by its name, with its
//! number and the sorts of its arguments.
#![tactic(auto)]

mod arguments;
mod fault;
pub mod laws;
mod limits;
mod pred;
mod reading;
mod signature;

pub use fault::SigFault;
pub use pred::Pred;
pub use reading::read_signature;
pub use signature::Signature;
