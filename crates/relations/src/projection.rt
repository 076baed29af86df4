//! Rows without some of their columns.
ghost use Rattle.std.specs.Prelude.{◌≡◌, ◌↔◌, ℕ, IfOk, IsTrue, map, true};
ghost use Rattle.mfotl_model.specs.FreeVariables.{among, without};
ghost use Rattle.mfotl_model.specs.Satisfaction.{Valuation, with_value};
ghost use Rattle.mfotl_model.specs.Tables.{all_among, all_apart, has, part};
ghost use Rattle.relations.specs.Operations.{projected_rows};

use crate::columns::{Columns, part_of, without};
use crate::table::Table;
use mfotl_model::{Row, Value};
use std::alloc::{AllocError, Global};

fn parts(
    alloc: Global,
    columns: &[u32],
    wanted: &[u32],
    rows: &[Row],
) -> Result<Vec<Row>, AllocError>
    ensures { IfOk result (λ parts. parts.items ≡ map (part columns.now wanted.now) rows.now) }
{
    let mut parts = Vec::with_capacity(alloc, rows.len())?;
    for row in rows {
        parts.push(part_of(alloc, columns, wanted, row.values())?)?;
    }
    Ok(parts)
}

impl Table {
    /// The parts of the rows at these columns, each once.
    pub fn project(&self, alloc: Global, columns: Columns) -> Result<Self, AllocError>
        requires apart { IsTrue (all_apart columns.items) }
        requires inside { IsTrue (all_among columns.items self.now.columns) }
        ensures columns { IfOk result (λ table. table.columns ≡ columns.items) }
        ensures rows { IfOk result (λ table. table.rows ≡ projected_rows columns.items self.now) }
        ensures has { IfOk result (λ table. (v : Valuation) → has table v ≡ true ↔
            ((w : Valuation) × (((y : ℕ) → among y columns.items ≡ true → w y ≡ v y)
            × (has self.now w ≡ true)))) }
    {
        let rows = parts(alloc, self.columns(), columns.as_slice(), self.rows())?;
        Ok(Table::from_rows(columns, rows))
    }

    /// The rows without one column, each once; all rows where no column is this one.
    pub fn exists(&self, alloc: Global, x: u32) -> Result<Self, AllocError>
        ensures columns { IfOk result (λ table. table.columns ≡ without x self.now.columns) }
        ensures rows { IfOk result (λ table.
            table.rows ≡ projected_rows (without x self.now.columns) self.now) }
        ensures has { IfOk result (λ table. (v : Valuation) → has table v ≡ true ↔
            ((a : Value) × (has self.now (with_value v x a) ≡ true))) }
    {
        let columns = without(alloc, x, self.columns())?;
        let rows = parts(alloc, self.columns(), columns.as_slice(), self.rows())?;
        Ok(Table::from_rows(columns, rows))
    }
}
