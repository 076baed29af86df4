//! What is pushed position by position.
ghost use Rattle.std.specs.Prelude.{◌≡◌, ◌<◌, ◌∷◌, IfOk, drop, length};

use crate::table::Table;
use std::alloc::{AllocError, Global};
use std::collections::VecDeque;

/// The item that was pushed first, of those that are left.
#[tactic(auto, using(crate::proofs::PushedLemmas::first_is))]
pub fn first_pushed<T>(queue: &VecDeque<T>) -> &T
    requires { 0 < length queue.now.items }
    ensures { queue.now.items ≡ result.now ∷ drop 1 queue.now.items }
{
    match queue.front() {
        Some(item) => item,
        None => unreachable!(),
    }
}

/// Copies of the tables that are left, in their order.
pub fn copied_tables(alloc: Global, tables: &VecDeque<Table>) -> Result<Vec<Table>, AllocError>
    ensures { IfOk result (λ copies. copies.items ≡ tables.now.items) }
{
    let mut copies = Vec::with_capacity(alloc, tables.len())?;
    for i in 0..tables.len() {
        copies.push(tables[i].copy(alloc)?)?;
    }
    Ok(copies)
}
