//! Pairs of rows that agree, of which a third table has a part.
ghost use Rattle.std.specs.Prelude.{◌≡◌, ◌++◌, IfOk, OnOk, length, map, true};
ghost use Rattle.std.specs.List.{filter, flat_map};
ghost use Rattle.mfotl_model.specs.FreeVariables.{joined, others};
ghost use Rattle.mfotl_model.specs.Tables.{all_sized, has_row, part, valuation};
ghost use Rattle.relations.specs.Operations.{common, has_part, pairs_of, table_of_rows};

use crate::columns::{others, part_of, value_of};
use crate::index::Index;
use crate::matched::combined;
use crate::steps::Steps;
use mfotl_model::{Row, Value, is_among};
use std::alloc::{AllocError, Global};
use std::collections::HashSet;
use std::sync::ledger::Ledger;

/// What the row of both has at a column: `more` are the second's columns that the first lacks.
fn value_of_pair(
    alloc: Global,
    columns: &[u32],
    first: &Row,
    other: &[u32],
    _more: &[u32],
    second: &Row,
    x: u32,
) -> Result<Value, AllocError>
    requires more { _more.now ≡ others columns.now other.now }
    requires sized { length first.now ≡ length columns.now }
    ensures { IfOk result (λ value. value ≡ valuation (columns.now ++ _more.now)
        (first.now ++ part other.now _more.now second.now) x) }
{
    if is_among(x, columns) {
        let value = value_of(alloc, columns, first.values(), x)?;
        return Ok(value);
    }
    let value = value_of(alloc, other, second.values(), x)?;
    Ok(value)
}

/// The part of the row of both at the columns that are wanted. The row of both isn't made.
#[tactic(auto, unfolding(mfotl_model::specs::Tables::part))]
fn part_of_pair(
    alloc: Global,
    columns: &[u32],
    first: &Row,
    other: &[u32],
    more: &[u32],
    second: &Row,
    wanted: &[u32],
) -> Result<Row, AllocError>
    requires more { more.now ≡ others columns.now other.now }
    requires sized { length first.now ≡ length columns.now }
    ensures { IfOk result (λ narrow. narrow ≡ part (columns.now ++ more.now) wanted.now
        (first.now ++ part other.now more.now second.now)) }
{
    let mut narrow = Row::empty();
    for x in wanted {
        let value = value_of_pair(alloc, columns, first, other, more, second, *x)?;
        narrow = narrow.push(alloc, value)?;
    }
    Ok(narrow)
}

/// Whether the third has its part of the row of both.
fn is_kept(
    alloc: Global,
    columns: &[u32],
    first: &Row,
    other: &[u32],
    more: &[u32],
    second: &Row,
    wanted: &[u32],
    third: &HashSet<Row>,
) -> Result<bool, AllocError>
    requires more { more.now ≡ others columns.now other.now }
    requires sized { length first.now ≡ length columns.now }
    ensures { IfOk result (λ yes. yes ≡ has_part (table_of_rows wanted.now third.now.keys) (columns.now ++ more.now)
        (first.now ++ part other.now more.now second.now)) }
{
    let key = part_of_pair(alloc, columns, first, other, more, second, wanted)?;
    Ok(third.contains(&key))
}

fn push_kept(
    alloc: Global,
    columns: &[u32],
    first: &Row,
    other: &[u32],
    more: &[u32],
    seconds: &[Row],
    wanted: &[u32],
    third: &HashSet<Row>,
    rows: &mut Vec<Row>,
) -> Result<(), AllocError>
    requires more { more.now ≡ others columns.now other.now }
    requires sized { length first.now ≡ length columns.now }
    ensures { OnOk result (rows.new.items ≡ rows.old.items
        ++ filter (has_part (table_of_rows wanted.now third.now.keys) (columns.now ++ more.now))
        (map (λ second. first.now ++ part other.now more.now second) seconds.now)) }
{
    for second in seconds {
        if is_kept(alloc, columns, first, other, more, second, wanted, third)? {
            rows.push(combined(alloc, other, more, first, second)?)?;
        }
    }
    Ok(())
}

/// A row, combined with each of the index's rows that agree with it, where the third has a part of both.
fn push_agreeing_kept<L: Ledger>(
    alloc: Global,
    columns: &[u32],
    more: &[u32],
    row: &Row,
    index: &Index,
    wanted: &[u32],
    third: &HashSet<Row>,
    steps: &mut Steps<L>,
    rows: &mut Vec<Row>,
) -> Result<(), AllocError>
    requires key { index.now.key_columns ≡ common columns.now index.now.columns }
    requires more { more.now ≡ others columns.now index.now.columns }
    requires sized { length row.now ≡ length columns.now }
    ensures { OnOk result (rows.new.items ≡ rows.old.items
        ++ filter (has_part (table_of_rows wanted.now third.now.keys) (joined columns.now index.now.columns))
        (pairs_of columns.now index.now.columns index.now.rows row.now)) }
{
    let key = part_of(alloc, columns, index.key_columns(), row.values())?;
    let seconds = index.matches(&key, steps);
    push_kept(
        alloc,
        columns,
        row,
        index.columns(),
        more,
        seconds,
        wanted,
        third,
        rows,
    )?;
    Ok(())
}

/// The rows of all pairs that agree, the second of each being the index's, where the third has a part
/// of both.
pub(crate) fn kept_pairs<L: Ledger>(
    alloc: Global,
    columns: &[u32],
    rows: &[Row],
    index: &Index,
    wanted: &[u32],
    third: &HashSet<Row>,
    steps: &mut Steps<L>,
) -> Result<Vec<Row>, AllocError>
    requires key { index.now.key_columns ≡ common columns.now index.now.columns }
    requires sized { all_sized (length columns.now) rows.now ≡ true }
    ensures { IfOk result (λ all. all.items ≡
        flat_map (λ row. filter (has_part (table_of_rows wanted.now third.now.keys)
        (joined columns.now index.now.columns))
        (pairs_of columns.now index.now.columns index.now.rows row)) rows.now) }
{
    let more = others(alloc, columns, index.columns())?;
    let mut all = Vec::new(alloc);
    for row in rows {
        push_agreeing_kept(
            alloc,
            columns,
            more.as_slice(),
            row,
            index,
            wanted,
            third,
            steps,
            &mut all,
        )?;
    }
    Ok(all)
}
