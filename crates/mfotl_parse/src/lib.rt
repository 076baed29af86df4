//! Reads a policy against a signature: its formula with the free variables in order, or the first fault.
#![tactic(auto)]

mod advance;
mod arguments;
mod call;
mod class;
mod comparisons;
mod ending;
pub mod examples;
mod fault;
mod formulas;
mod frame;
mod intervals;
pub mod laws;
mod limits;
mod lookahead;
mod operands;
mod operators;
mod quantifiers;
mod reading;
mod sorts;
mod stack;
mod state;
mod symbol_table;
mod term;

pub use fault::PolicyFault;
pub use reading::read_policy;
