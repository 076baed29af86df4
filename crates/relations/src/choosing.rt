//! The rows at which a comparison comes out as wanted.
ghost use Rattle.std.specs.Prelude.{◌≡◌, ◌&&◌, IfOk, IsTrue, pos};
ghost use Rattle.std.specs.List.{filter};
ghost use Rattle.mfotl_model.specs.Satisfaction.{Valuation, term_value};
ghost use Rattle.mfotl_model.specs.Tables.{has, valuation};
ghost use Rattle.relations.specs.Operations.{covers_term, chosen, chosen_rows};

use crate::columns::{Columns, value_at};
use crate::table::Table;
use mfotl_model::{Comparison, Row, Term, Value};
use std::alloc::{AllocError, Global};

fn term_at<'a>(columns: &[u32], row: &'a Row, term: &'a Term, zero: &'a Value) -> &'a Value
    requires { zero.now ≡ Value.Int (pos 0) }
    ensures { result.now ≡ term_value (valuation columns.now row.now) term.now }
{
    match term {
        Term::Var(x) => value_at(columns, row.values(), *x).unwrap_or(zero),
        Term::Const(value) => value,
    }
}

#[tactic(auto, unfolding(crate::specs::Operations::chosen))]
fn is_chosen(columns: &[u32], comparison: &Comparison, wanted: bool, row: &Row) -> bool
    ensures { result ≡ chosen comparison.now wanted (valuation columns.now row.now) }
{
    let zero = Value::Int(0);
    let left = term_at(columns, row, &comparison.left, &zero);
    let right = term_at(columns, row, &comparison.right, &zero);
    wanted == comparison.sign.compares(left, right)
}

fn chosen_rows(
    alloc: Global,
    columns: &[u32],
    comparison: &Comparison,
    wanted: bool,
    rows: &[Row],
) -> Result<Vec<Row>, AllocError>
    ensures { IfOk result (λ kept. kept.items ≡
        filter (λ row. chosen comparison.now wanted (valuation columns.now row)) rows.now) }
{
    let mut kept = Vec::new(alloc);
    for row in rows {
        if is_chosen(columns, comparison, wanted, row) {
            kept.push(row.copy(alloc)?)?;
        }
    }
    Ok(kept)
}

fn retain_chosen(columns: &[u32], comparison: &Comparison, wanted: bool, rows: &mut Vec<Row>)
    ensures { rows.new.items ≡
        filter (λ row. chosen comparison.now wanted (valuation columns.now row)) rows.old.items }
{
    rows.retain(|row| is_chosen(columns, comparison, wanted, row));
}

impl Table {
    /// The rows at which the comparison of their columns comes out as wanted.
    pub fn select(
        &self,
        alloc: Global,
        comparison: &Comparison,
        wanted: bool,
    ) -> Result<Self, AllocError>
        requires left { IsTrue (covers_term self.now.columns comparison.now.left) }
        requires right { IsTrue (covers_term self.now.columns comparison.now.right) }
        ensures columns { IfOk result (λ table. table.columns ≡ self.now.columns) }
        ensures rows { IfOk result (λ table.
            table.rows ≡ chosen_rows comparison.now wanted self.now) }
        ensures has { IfOk result (λ table. (v : Valuation) →
            has table v ≡ (has self.now v && chosen comparison.now wanted v)) }
    {
        let columns = Columns::from_slice(alloc, self.columns())?;
        let rows = chosen_rows(alloc, self.columns(), comparison, wanted, self.rows())?;
        Ok(Table::from_ascending(columns, rows))
    }

    /// What `select` gives, without copies of the rows that stay and without memory.
    pub fn selected(self, comparison: &Comparison, wanted: bool) -> Self
        requires left { IsTrue (covers_term self.columns comparison.now.left) }
        requires right { IsTrue (covers_term self.columns comparison.now.right) }
        ensures columns { result.columns ≡ self.columns }
        ensures rows { result.rows ≡ chosen_rows comparison.now wanted self }
        ensures has { (v : Valuation) →
            has result v ≡ (has self v && chosen comparison.now wanted v) }
    {
        let (columns, mut rows) = self.into_parts();
        retain_chosen(columns.as_slice(), comparison, wanted, &mut rows);
        Table::from_ascending(columns, rows)
    }

    /// The table itself where this holds, else the one without rows. It takes no memory.
    pub fn only_where(self, alloc: Global, holds: bool) -> Self
        ensures columns { result.columns ≡ self.columns }
        ensures has { (v : Valuation) → has result v ≡ (holds && has self v) }
    {
        if holds {
            return self;
        }
        let (columns, _rows) = self.into_parts();
        Table::empty(alloc, columns)
    }
}
