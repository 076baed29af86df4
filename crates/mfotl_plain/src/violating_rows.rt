//! The violations of a formula, found by trying every row over the active domain.
ghost use Rattle.std.specs.Prelude.{◌≡◌, ◌<◌, ◌∷◌, ◌++◌, [], not, filter, length, map, IfOk, OnOk};
ghost use Rattle.mfotl_model.specs.ActiveDomain.{ascending};
ghost use Rattle.mfotl_model.specs.Formulas.{form};
ghost use Rattle.mfotl_model.specs.Satisfaction.{sat};
ghost use Rattle.mfotl_model.specs.Values.{row_cmp};
ghost use Rattle.mfotl_model.specs.Violations.{all_rows, valuation, viol};

use crate::domain::{active_domain, push_values};
use crate::satisfaction::holds;
use mfotl_model::{Formula, Partial, Row, RowList, TimePoint, Value};
use std::alloc::{AllocError, Global};

/// The rows over the formula's free variables, in ascending order, at which it doesn't hold at a
/// position of the log.
pub fn violations(
    alloc: Global,
    formula: &Formula,
    log: &[TimePoint],
    at: usize,
) -> Result<Vec<Row>, AllocError>
    requires { at < length log.now }
    ensures { IfOk result (λ rows. rows.items ≡ viol log.now (form formula.now) at) }
{
    let columns = formula.free_vars(alloc)?;
    let dom = active_domain(alloc, formula, log)?;
    let rows = all_rows(alloc, columns.len(), dom.as_slice())?;
    let query = Query {
        formula,
        log,
        dom: dom.as_slice(),
        columns: columns.as_slice(),
        at,
    };
    let found = query.failing(alloc, rows)?;
    Ok(RowList::in_order(found).into_vec())
}

// A formula asked at rows over `columns`, at a position of a log, its quantifiers over `dom`.
#[derive(Clone, Copy)]
struct Query<'a> {
    formula: &'a Formula,
    log: &'a [TimePoint],
    dom: &'a [Value],
    columns: &'a [u32],
    at: usize,
}

impl Query<'_> {
    // Those of the rows at which the formula doesn't hold.
    fn failing(&self, alloc: Global, rows: Vec<Row>) -> Result<Vec<Row>, AllocError>
        requires { self.now.at < length self.now.log.now }
        ensures { IfOk result (λ found. found.items ≡ filter (λ row. not (sat self.now.log.now self.now.dom.now
            (valuation self.now.columns.now row) self.now.at (form self.now.formula.now))) rows.items) }
    {
        let mut found = Vec::new(alloc);
        for row in rows {
            self.push_failing(alloc, &mut found, row)?;
        }
        Ok(found)
    }

    // Adds the row, if the formula doesn't hold at it.
    fn push_failing(&self, alloc: Global, found: &mut Vec<Row>, row: Row) -> Result<(), AllocError>
        requires { self.now.at < length self.now.log.now }
        ensures { OnOk result (found.new.items ≡ found.old.items ++ filter (λ row. not (sat self.now.log.now
            self.now.dom.now (valuation self.now.columns.now row) self.now.at (form self.now.formula.now)))
            (row ∷ [])) }
    {
        let part = Partial {
            cols: self.columns,
            row: &row,
        };
        if !holds(alloc, self.formula, self.log, self.dom, &part, self.at)? {
            found.push(row)?;
        }
        Ok(())
    }
}

// All rows of `count` values of the domain.
fn all_rows(alloc: Global, count: usize, dom: &[Value]) -> Result<Vec<Row>, AllocError>
    ensures { IfOk result (λ rows. rows.items ≡ all_rows count dom.now) }
{
    let mut rows = Vec::new(alloc);
    if count == 0 {
        rows.push(Row::empty())?;
        return Ok(rows);
    }
    let shorter = all_rows(alloc, count - 1, dom)?;
    for value in dom {
        add_rows(alloc, &mut rows, value, shorter.as_slice())?;
    }
    Ok(rows)
}

fn add_rows(
    alloc: Global,
    rows: &mut Vec<Row>,
    value: &Value,
    shorter: &[Row],
) -> Result<(), AllocError>
    ensures { OnOk result (rows.new.items ≡ rows.old.items ++ map (λ row. value.now ∷ row) shorter.now) }
{
    for row in shorter {
        rows.push(row_of(alloc, value, row)?)?;
    }
    Ok(())
}

// The row that begins with the value and goes on with the other row.
fn row_of(alloc: Global, value: &Value, row: &Row) -> Result<Row, AllocError>
    ensures { IfOk result (λ longer. longer ≡ value.now ∷ row.now) }
{
    let mut longer = Vec::new(alloc);
    longer.push(value.copy(alloc)?)?;
    push_values(alloc, &mut longer, row.values())?;
    Ok(Row::new(longer))
}
