//! Which policies can be monitored, and the normal form that the monitor works on: the layer above
//! makes a policy's core, or learns the first reason why it has none.
#![tactic(auto)]

mod apart;
mod atoms;
mod boxes;
mod conjunction;
mod core_of_policy;
mod count;
pub mod examples;
mod fault;
mod fragment;
mod free_variables;
pub mod laws;
mod limits;
mod node;
mod normal_form;
mod policy_core;
mod renaming;
mod role;
mod scope;
mod variables;

pub use conjunction::{Part, conjuncts};
pub use core_of_policy::to_core;
pub use fault::{FragmentFault, Variable};
pub use node::Node;
pub use policy_core::Core;
pub use role::Role;
pub use variables::{binds, bound_by};
