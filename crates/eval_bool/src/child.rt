//! A child of a conjunction, and its tables.
ghost use Rattle.eval_bool.specs.JoinView.{child_advanced};
ghost use Rattle.eval_bool.specs.Heads.{IsHeadTable};
ghost use Rattle.relations.specs.Pushed.{AreOver};
ghost use Rattle.std.specs.Prelude.{◌≡◌, ◌∷◌, ◌++◌, [], IfOk, OnOk, OnErr, length, nat_lt, ◌+◌, ◌<◌, ◌^◌, IsTrue};

use crate::admission::fits;
use relations::{Table, copied_tables};
use std::alloc::{AllocError, Global};
use std::collections::VecDeque;
use std::marker::Model;

/// A child of a conjunction, with its tables for the positions that weren't pulled.
#[derive(Drop)]
pub(crate) struct Child {
    columns: Vec<u32>,
    negated: bool,
    tables: VecDeque<Table>,
}

impl Model for Child {
    ghost use Rattle.eval_bool.specs.JoinView.{ChildOf};
    ghost use Rattle.relations.specs.Pushed.{AreOver};

    ghost Value = { ChildOf };

    ghost view = { λ c. record { columns = c.columns.items; negated = c.negated; tables = c.tables.items } };

    ghost invariant = { λ c. AreOver c.columns.items c.tables.items };
}

impl Child {
    pub(crate) fn new(alloc: Global, columns: Vec<u32>, negated: bool) -> Self
        ensures { result ≡ record { columns = columns.items; negated = negated; tables = [] } }
    {
        Child {
            columns,
            negated,
            tables: VecDeque::new(alloc),
        }
    }

    /// The child with these tables.
    pub(crate) fn with_tables(self, tables: Vec<Table>) -> Self
        requires over { AreOver self.columns tables.items }
        ensures { result ≡ record self { tables = tables.items } }
    {
        Child {
            columns: self.columns,
            negated: self.negated,
            tables: VecDeque::from_vec(tables),
        }
    }

    /// Copies of its tables.
    pub(crate) fn copied(&self, alloc: Global) -> Result<Vec<Table>, AllocError>
        ensures tables { IfOk result (λ tables. tables.items ≡ self.now.tables) }
        ensures over { AreOver self.now.columns self.now.tables }
    {
        let tables = copied_tables(alloc, &self.tables)?;
        Ok(tables)
    }

    pub(crate) fn is_negated(&self) -> bool
        ensures { result ≡ self.now.negated }
    {
        self.negated
    }

    /// Whether the table of the next position was pushed.
    pub(crate) fn is_ready(&self) -> bool
        ensures { result ≡ nat_lt 0 (length self.now.tables) }
    {
        !self.tables.is_empty()
    }

    /// Whether `push` may take the table after so many positions were pulled.
    pub(crate) fn takes(&self, pulled: u64, table: &Table) -> bool
        ensures columns { IsTrue result → table.now.columns ≡ self.now.columns }
        ensures few { IsTrue result → pulled + length self.now.tables < 2 ^ 63 }
        ensures enough { table.now.columns ≡ self.now.columns →
            pulled + length self.now.tables < 2 ^ 63 → IsTrue result }
    {
        fits(self.columns.as_slice(), pulled, self.tables.len(), table)
    }

    /// Takes the next table.
    pub(crate) fn push(&mut self, table: Table) -> Result<(), AllocError>
        requires columns { table.columns ≡ self.old.columns }
        ensures pushed { OnOk result
            (self.new ≡ record self.old { tables = self.old.tables ++ table ∷ [] }) }
        ensures old { OnErr result (self.new ≡ self.old) }
    {
        self.tables.push_back(table)?;
        Ok(())
    }

    /// Gives the first of its tables away.
    pub(crate) fn pop(&mut self) -> Option<Table>
        ensures advanced { self.new ≡ child_advanced self.old }
        ensures first { IsHeadTable self.old.columns self.old.tables result }
    {
        self.tables.pop_front()
    }
}
