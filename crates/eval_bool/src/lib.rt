//! Atoms, quantified formulas, conjunctions and disjunctions over the tables of their operands.
#![tactic(auto)]

mod admission;
mod atom;
mod child;
mod combined;
mod conjunct;
mod exists;
mod heads;
mod join;
pub mod laws;
mod matching;
mod or;
mod recalled;
mod refill;
mod reorder;

pub use atom::{AtomReader, eval_atom};
pub use conjunct::Conjunct;
pub use exists::eval_exists;
pub use join::JoinState;
pub use or::OrState;
pub use recalled::{JoinData, OrData};
pub use reorder::reordered;
