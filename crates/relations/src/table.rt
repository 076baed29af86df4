//! Tables: strictly ascending rows over distinct columns.
ghost use Rattle.std.specs.Prelude.{◌≡◌, ◌∷◌, [], IfOk, OnOk, OnErr, IsTrue, length, map, not, true, false};
ghost use Rattle.std.specs.BTreeSet.{insert_key};
ghost use Rattle.std.specs.Fn.{CalledAt};
ghost use Rattle.std.specs.List.Retain.{IsFiltered};
ghost use Rattle.mfotl_model.specs.Ascending.{ascending};
ghost use Rattle.mfotl_model.specs.Satisfaction.{Valuation};
ghost use Rattle.mfotl_model.specs.Tables.{all_apart, all_sized, has, has_row};
ghost use Rattle.mfotl_model.specs.Values.{row_cmp};
ghost use Rattle.relations.specs.Tables.{IsTable};

use crate::columns::Columns;
use crate::rows::{copied_rows, empty_row, has_row, insert_row};
use mfotl_model::{Row, RowList};
use std::alloc::{AllocError, Global};
use std::marker::Model;

/// Rows over columns, one value for each. A column is the number of the variable whose values stand
/// in it. No two columns are the same, and the rows ascend strictly.
#[derive(Drop)]
pub struct Table {
    columns: Columns,
    rows: Vec<Row>,
}

impl Model for Table {
    ghost use Rattle.mfotl_model.specs.Tables.{TableOf};
    ghost use Rattle.relations.specs.Tables.{IsTable};

    ghost Value = { TableOf };

    ghost view = { λ t. record { columns = t.columns.items; rows = t.rows.items } };

    ghost invariant = { λ t. IsTable t.columns.items t.rows.items };
}

impl Table {
    /// The table without rows. It takes no memory.
    #[tactic(auto, unfolding(mfotl_model::specs::Tables::has))]
    pub fn empty(alloc: Global, columns: Columns) -> Self
        requires apart { IsTrue (all_apart columns.items) }
        ensures columns { result.columns ≡ columns.items }
        ensures rows { result.rows ≡ [] }
        ensures has { (v : Valuation) → has result v ≡ false }
    {
        Table {
            columns,
            rows: Vec::new(alloc),
        }
    }

    /// The table without columns that has the one row of no values.
    #[tactic(auto, unfolding(mfotl_model::specs::Tables::has))]
    pub fn unit(alloc: Global) -> Result<Self, AllocError>
        ensures columns { IfOk result (λ table. table.columns ≡ []) }
        ensures rows { IfOk result (λ table. table.rows ≡ [] ∷ []) }
        ensures has { IfOk result (λ table. (v : Valuation) → has table v ≡ true) }
    {
        Ok(Table {
            columns: Columns::new(alloc),
            rows: empty_row(alloc)?,
        })
    }

    /// The table of these rows, which may come in any order and more than once.
    #[tactic(auto, unfolding(mfotl_model::specs::Tables::has))]
    pub fn from_rows(columns: Columns, rows: Vec<Row>) -> Self
        requires apart { IsTrue (all_apart columns.items) }
        requires sized { IsTrue (all_sized (length columns.items) rows.items) }
        ensures columns { result.columns ≡ columns.items }
        ensures rows { result.rows ≡ ascending row_cmp rows.items }
        ensures has { (v : Valuation) → has result v ≡ has_row rows.items (map v columns.items) }
    {
        Table {
            columns,
            rows: RowList::in_order(rows).into_vec(),
        }
    }

    /// The table of these rows as they stand, such as some of another table's.
    pub fn from_ascending(columns: Columns, rows: Vec<Row>) -> Self
        requires is_table { IsTable columns.items rows.items }
        ensures columns { result.columns ≡ columns.items }
        ensures rows { result.rows ≡ rows.items }
    {
        Table { columns, rows }
    }

    /// The columns and the rows themselves.
    pub fn into_parts(self) -> (Columns, Vec<Row>)
        ensures columns { result.0.items ≡ self.columns }
        ensures rows { result.1.items ≡ self.rows }
        ensures is_table { IsTable self.columns self.rows }
    {
        (self.columns, self.rows)
    }

    /// The rows themselves.
    pub fn into_rows(self) -> Vec<Row>
        ensures rows { result.items ≡ self.rows }
        ensures is_table { IsTable self.columns self.rows }
    {
        self.rows
    }

    pub fn columns(&self) -> &[u32]
        ensures columns { result.now ≡ self.now.columns }
        ensures apart { IsTrue (all_apart self.now.columns) }
    {
        self.columns.as_slice()
    }

    pub fn rows(&self) -> &[Row]
        ensures rows { result.now ≡ self.now.rows }
        ensures is_table { IsTable self.now.columns self.now.rows }
    {
        self.rows.as_slice()
    }

    /// Whether this is one of the rows, by a binary search.
    pub fn contains(&self, row: &Row) -> bool
        ensures { result ≡ has_row self.now.rows row.now }
    {
        has_row(self.rows(), row)
    }

    pub fn copy(&self, alloc: Global) -> Result<Self, AllocError>
        ensures { IfOk result (λ table. table ≡ self.now) }
    {
        let columns = Columns::from_slice(alloc, self.columns())?;
        let rows = copied_rows(alloc, self.rows())?;
        Ok(Table { columns, rows })
    }

    /// Puts a row in its place, and tells whether it is new. Without memory the table stays.
    pub fn insert(&mut self, row: Row) -> Result<bool, AllocError>
        requires sized { length row ≡ length self.old.columns }
        ensures columns { self.new.columns ≡ self.old.columns }
        ensures rows { OnOk result (self.new.rows ≡ insert_key row_cmp self.old.rows row) }
        ensures old { OnErr result (self.new.rows ≡ self.old.rows) }
        ensures is_new { IfOk result (λ new. new ≡ not (has_row self.old.rows row)) }
    {
        insert_row(&mut self.rows, row)
    }

    /// Keeps the rows that pass the test, in their order.
    pub fn retain<F: FnMut(&Row) -> bool>(&mut self, test: F)
        requires callable { F.IsAlwaysCallable test }
        ensures columns { self.new.columns ≡ self.old.columns }
        ensures rows { IsFiltered (CalledAt F.FnMut) test self.old.rows self.new.rows }
    {
        self.rows.retain(test);
    }
}
