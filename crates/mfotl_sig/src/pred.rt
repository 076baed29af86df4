//! One predicate of a signature.
use mfotl_model::{Name, Sort};

/// A predicate of a signature.
#[derive(Drop)]
pub struct Pred {
    /// Its place among the predicates of the signature, counted from 0.
    pub number: u32,
    pub name: Name,
    /// The sorts of its arguments, from left to right.
    pub sorts: Vec<Sort>,
}
