//! Columns, and rows read through them.
ghost use Rattle.std.specs.Prelude.{◌≡◌, IfOk, MatchOption, map, pos};
ghost use Rattle.mfotl_model.specs.FreeVariables.{joined, others, without};
ghost use Rattle.mfotl_model.specs.Tables.{all_among, part, valuation};
ghost use Rattle.relations.specs.Operations.{common};

use mfotl_model::{Row, Value, is_among};
use smallvec::SmallVec;
use std::alloc::{AllocError, Global};

/// The columns of a table. Up to four stand in the value itself, more in memory of their own.
pub type Columns = SmallVec<u32, 4>;

/// What a row over these columns has at a column. `None` is answered where it has none, and may be where it has 0.
pub(crate) fn value_at<'a>(columns: &[u32], row: &'a [Value], x: u32) -> Option<&'a Value>
    ensures { MatchOption result
        (valuation columns.now row.now x ≡ Value.Int (pos 0))
        (λ value. value.now ≡ valuation columns.now row.now x) }
{
    for i in 0..columns.len() {
        if i >= row.len() {
            return None;
        }
        if columns[i] == x {
            return Some(&row[i]);
        }
    }
    None
}

pub(crate) fn value_of(
    alloc: Global,
    columns: &[u32],
    row: &[Value],
    x: u32,
) -> Result<Value, AllocError>
    ensures { IfOk result (λ value. value ≡ valuation columns.now row.now x) }
{
    match value_at(columns, row, x) {
        Some(value) => value.copy(alloc),
        None => Ok(Value::Int(0)),
    }
}

/// The part of a row over these columns at the columns that are wanted, in their order.
#[tactic(auto, unfolding(mfotl_model::specs::Tables::part))]
pub fn part_of(
    alloc: Global,
    columns: &[u32],
    wanted: &[u32],
    row: &[Value],
) -> Result<Row, AllocError>
    ensures { IfOk result (λ narrow. narrow ≡ part columns.now wanted.now row.now) }
{
    let mut narrow = Row::empty();
    for x in wanted {
        narrow = narrow.push(alloc, value_of(alloc, columns, row, *x)?)?;
    }
    Ok(narrow)
}

/// Whether each of the columns that are wanted is one of these.
pub fn all_among(wanted: &[u32], columns: &[u32]) -> bool
    ensures { result ≡ all_among wanted.now columns.now }
{
    wanted.iter().all(|x| is_among(*x, columns))
}

/// The columns of the second that the first has.
pub fn common(alloc: Global, first: &[u32], second: &[u32]) -> Result<Columns, AllocError>
    ensures { IfOk result (λ both. both.items ≡ common first.now second.now) }
{
    second
        .iter()
        .copied()
        .filter(|y| is_among(*y, first))
        .collect(alloc)
}

/// The columns of the second that the first lacks.
pub(crate) fn others(alloc: Global, first: &[u32], second: &[u32]) -> Result<Columns, AllocError>
    ensures { IfOk result (λ more. more.items ≡ others first.now second.now) }
{
    second
        .iter()
        .copied()
        .filter(|y| !is_among(*y, first))
        .collect(alloc)
}

/// The columns of both: those of the first, then those of the second that the first lacks.
pub(crate) fn both_columns(
    alloc: Global,
    first: &[u32],
    second: &[u32],
) -> Result<Columns, AllocError>
    ensures { IfOk result (λ both. both.items ≡ joined first.now second.now) }
{
    let mut both = Columns::from_slice(alloc, first)?;
    both.extend_from_slice(others(alloc, first, second)?.as_slice())?;
    Ok(both)
}

/// The columns but this one.
pub(crate) fn without(alloc: Global, x: u32, columns: &[u32]) -> Result<Columns, AllocError>
    ensures { IfOk result (λ rest. rest.items ≡ without x columns.now) }
{
    columns.iter().copied().filter(|y| *y != x).collect(alloc)
}
