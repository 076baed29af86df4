//! Tables of positions that follow one another.
ghost use Rattle.std.specs.Prelude.{◌≡◌, ◌++◌, ◌∷◌, [], IfNone, IfOk, OnOk, length, option_to_list};
ghost use Rattle.std.specs.Iterator.{YieldsFirst, item_count};
ghost use Rattle.monitor_nodes.specs.HeldTables.{held_tables};

use relations::{Table, copied_tables};
use std::alloc::{AllocError, Global};
use std::collections::VecDeque;
use std::marker::Model;
use std::mem;

// Mostly there is one table, which takes no memory of its own.
#[derive(Drop)]
enum Held {
    None,
    One(Table),
    Many(VecDeque<Table>),
}

/// Tables of positions that follow one another, in their order.
#[derive(Drop)]
pub struct Tables {
    held: Held,
}

impl Model for Tables {
    ghost use Rattle.std.specs.Prelude.{List};
    ghost use Rattle.mfotl_model.specs.Tables.{TableOf};
    ghost use Rattle.monitor_nodes.specs.HeldTables.{held_tables};

    ghost Value = { List TableOf };

    ghost view = { λ t. held_tables t.held };
}

// The tables and one more. The second takes memory for both.
fn one_more(alloc: Global, held: Held, table: Table) -> Result<Held, AllocError>
    ensures { IfOk result (λ more. held_tables more ≡ held_tables held ++ table ∷ []) }
{
    match held {
        Held::None => Ok(Held::One(table)),
        Held::One(first) => Ok(Held::Many(VecDeque::from_vec(vec![in alloc; first, table]?))),
        Held::Many(mut tables) => {
            tables.push_back(table)?;
            Ok(Held::Many(tables))
        }
    }
}

impl Tables {
    /// No table.
    pub fn new() -> Self
        ensures { result ≡ [] }
    {
        Tables { held: Held::None }
    }

    /// One table.
    pub fn one(table: Table) -> Self
        ensures { result ≡ table ∷ [] }
    {
        Tables {
            held: Held::One(table),
        }
    }

    /// Adds the table of the next position. Where memory is wanting, none is left.
    pub fn push(&mut self, alloc: Global, table: Table) -> Result<(), AllocError>
        ensures { OnOk result (self.new ≡ self.old ++ table ∷ []) }
    {
        let held = mem::replace(&mut self.held, Held::None);
        self.held = one_more(alloc, held, table)?;
        Ok(())
    }

    /// How many tables there are.
    pub fn len(&self) -> usize
        ensures { result ≡ length self.now }
    {
        match &self.held {
            Held::None => 0,
            Held::One(_) => 1,
            Held::Many(tables) => tables.len(),
        }
    }

    /// These tables.
    pub fn from_vec(tables: Vec<Table>) -> Self
        ensures { result ≡ tables.items }
    {
        Tables {
            held: Held::Many(VecDeque::from_vec(tables)),
        }
    }

    /// Copies of the tables.
    pub fn copied(&self, alloc: Global) -> Result<Vec<Table>, AllocError>
        ensures { IfOk result (λ copies. copies.items ≡ self.now) }
    {
        match &self.held {
            Held::None => Ok(Vec::new(alloc)),
            Held::One(table) => Ok(vec![in alloc; table.copy(alloc)?]?),
            Held::Many(tables) => copied_tables(alloc, tables),
        }
    }

    /// Takes the first table.
    pub fn take(&mut self) -> Option<Table>
        ensures first { self.old ≡ option_to_list result ++ self.new }
        ensures none { IfNone result (self.old ≡ []) }
    {
        if let Held::Many(tables) = &mut self.held {
            return tables.pop_front();
        }
        match mem::replace(&mut self.held, Held::None) {
            Held::One(table) => Some(table),
            _ => None,
        }
    }
}

impl IntoIterator for Tables {
    type Item = Table;

    type IntoIter = IntoIter;

    ghost into_iter_gives = { λ tables iter. iter.left ≡ tables };

    fn into_iter(self) -> IntoIter {
        IntoIter { left: self }
    }
}

/// The tables, one after the other.
#[derive(Drop)]
pub struct IntoIter {
    left: Tables,
}

impl Iterator for IntoIter {
    type Item = Table;

    ghost next_gives = { YieldsFirst (λ iter. iter.left) };

    ghost remaining = { item_count (λ iter. iter.left) };

    fn next(&mut self) -> Option<Table> {
        self.left.take()
    }
}
