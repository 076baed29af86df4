//! The stack on which nodes leave their tables for the node that they are operands of.
ghost use Rattle.std.specs.Prelude.{IfOk};
ghost use Rattle.monitor_nodes.specs.Stacks.{Pops, PopsMany};

use crate::tables::Tables;
use std::alloc::{AllocError, Global};

/// Takes the tables on top of the stack.
pub fn popped(stack: &mut Vec<Tables>) -> Tables
    ensures { Pops stack.old.items stack.new.items result }
{
    match stack.pop() {
        Some(tables) => tables,
        None => Tables::new(),
    }
}

/// Takes the n lists of tables on top of the stack, in the order in which they were put there.
pub fn popped_many(stack: &mut Vec<Tables>, n: usize) -> Result<Vec<Tables>, AllocError>
    ensures { IfOk result (λ tops. PopsMany n stack.old.items stack.new.items tops.items) }
{
    let at = stack.len().saturating_sub(n);
    Ok(stack.split_off(at)?)
}
