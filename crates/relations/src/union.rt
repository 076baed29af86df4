//! The rows of either of two tables.
ghost use Rattle.std.specs.Prelude.{◌≡◌, ◌||◌, ◌++◌, IfOk, OnOk};
ghost use Rattle.mfotl_model.specs.Satisfaction.{Valuation};
ghost use Rattle.mfotl_model.specs.Tables.{has};
ghost use Rattle.relations.specs.Operations.{united_rows};

use crate::columns::Columns;
use crate::rows::{copied_rows, push_rows};
use crate::table::Table;
use mfotl_model::Row;
use std::alloc::{AllocError, Global};

fn move_rows(more: Vec<Row>, rows: &mut Vec<Row>) -> Result<(), AllocError>
    ensures { OnOk result (rows.new.items ≡ rows.old.items ++ more.items) }
{
    for row in more {
        rows.push(row)?;
    }
    Ok(())
}

impl Table {
    /// The rows of either table.
    #[tactic(auto, unfolding(mfotl_model::specs::Tables::has))]
    pub fn union(&self, alloc: Global, other: &Table) -> Result<Self, AllocError>
        requires same { self.now.columns ≡ other.now.columns }
        ensures columns { IfOk result (λ table. table.columns ≡ self.now.columns) }
        ensures rows { IfOk result (λ table. table.rows ≡ united_rows self.now other.now) }
        ensures has { IfOk result (λ table. (v : Valuation) →
            has table v ≡ (has self.now v || has other.now v)) }
    {
        let columns = Columns::from_slice(alloc, self.columns())?;
        let mut rows = copied_rows(alloc, self.rows())?;
        push_rows(alloc, other.rows(), &mut rows)?;
        Ok(Table::from_rows(columns, rows))
    }

    /// What `union` gives, without copies of the rows.
    #[tactic(auto, unfolding(mfotl_model::specs::Tables::has))]
    pub fn united(self, other: Table) -> Result<Self, AllocError>
        requires same { self.columns ≡ other.columns }
        ensures columns { IfOk result (λ table. table.columns ≡ self.columns) }
        ensures rows { IfOk result (λ table. table.rows ≡ united_rows self other) }
        ensures has { IfOk result (λ table. (v : Valuation) →
            has table v ≡ (has self v || has other v)) }
    {
        let (columns, mut rows) = self.into_parts();
        let (_, more) = other.into_parts();
        move_rows(more, &mut rows)?;
        Ok(Table::from_rows(columns, rows))
    }
}
