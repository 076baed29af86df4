//! The tables of all children, out of them and back.
ghost use Rattle.std.specs.Prelude.{◌≡◌, ℕ, IfOk, map};
ghost use Rattle.std.specs.List.{AllByRecursion};
ghost use Rattle.relations.specs.Pushed.{AreOver};
ghost use Rattle.eval_bool.specs.BoolData.{TablesOver, with_tables};

use crate::child::Child;
use relations::Table;
use std::alloc::{AllocError, Global};

/// The children with these tables.
pub(crate) fn refilled(
    alloc: Global,
    children: Vec<Child>,
    tables: Vec<Vec<Table>>,
) -> Result<Vec<Child>, AllocError>
    requires over { TablesOver children.items (map (λ ts. ts.items) tables.items) }
    ensures { IfOk result (λ filled.
        filled.items ≡ with_tables children.items (map (λ ts. ts.items) tables.items)) }
{
    let mut filled = Vec::with_capacity(alloc, children.len())?;
    let mut tables = tables.into_iter();
    for child in children {
        let Some(own) = tables.next() else {
            unreachable!();
        };
        filled.push(child.with_tables(own))?;
    }
    Ok(filled)
}

/// Copies of the tables of each child.
pub(crate) fn copied_all(alloc: Global, children: &[Child]) -> Result<Vec<Vec<Table>>, AllocError>
    ensures tables { IfOk result (λ tables.
        map (λ ts. ts.items) tables.items ≡ map (λ c. c.tables) children.now) }
    ensures over { IfOk result (λ _. AllByRecursion (λ c. AreOver c.columns c.tables) children.now) }
{
    let mut tables = Vec::with_capacity(alloc, children.len())?;
    for child in children {
        tables.push(child.copied(alloc)?)?;
    }
    Ok(tables)
}
