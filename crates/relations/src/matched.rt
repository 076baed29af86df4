//! Rows of one table with those of another that agree, found by an index.
ghost use Rattle.std.specs.Prelude.{◌≡◌, ◌++◌, ◌+◌, ◌*◌, ◌<◌, ◌≤◌, ◌^◌, IfOk, OnOk, length, map, not, ℕ};
ghost use Rattle.std.specs.List.{filter};
ghost use Rattle.mfotl_model.specs.FreeVariables.{others};
ghost use Rattle.mfotl_model.specs.Tables.{has_row, part};
ghost use Rattle.relations.specs.Operations.{common, pairs, pairs_of, pairs_with, turned_pairs};

use crate::columns::{others, part_of, value_of};
use crate::index::Index;
use crate::steps::Steps;
use mfotl_model::Row;
use std::alloc::{AllocError, Global};
use std::sync::ledger::Ledger;

/// The row of both: the first, then what the second has in the columns `more`.
#[tactic(auto, unfolding(mfotl_model::specs::Tables::part))]
pub(crate) fn combined(
    alloc: Global,
    columns: &[u32],
    more: &[u32],
    first: &Row,
    second: &Row,
) -> Result<Row, AllocError>
    ensures { IfOk result (λ row. row ≡ first.now ++ part columns.now more.now second.now) }
{
    let mut both = first.copy(alloc)?;
    for x in more {
        both = both.push(alloc, value_of(alloc, columns, second.values(), *x)?)?;
    }
    Ok(both)
}

fn push_seconds(
    alloc: Global,
    columns: &[u32],
    more: &[u32],
    row: &Row,
    seconds: &[Row],
    rows: &mut Vec<Row>,
) -> Result<(), AllocError>
    ensures { OnOk result (rows.new.items ≡
        rows.old.items ++ map (λ second. row.now ++ part columns.now more.now second) seconds.now) }
{
    for second in seconds {
        rows.push(combined(alloc, columns, more, row, second)?)?;
    }
    Ok(())
}

fn push_firsts(
    alloc: Global,
    columns: &[u32],
    more: &[u32],
    firsts: &[Row],
    second: &Row,
    rows: &mut Vec<Row>,
) -> Result<(), AllocError>
    ensures { OnOk result (rows.new.items ≡
        rows.old.items ++ map (λ first. first ++ part columns.now more.now second.now) firsts.now) }
{
    for first in firsts {
        rows.push(combined(alloc, columns, more, first, second)?)?;
    }
    Ok(())
}

/// A row, combined with each of the index's rows that agree with it.
fn push_agreeing<L: Ledger>(
    alloc: Global,
    columns: &[u32],
    more: &[u32],
    row: &Row,
    index: &Index,
    steps: &mut Steps<L>,
    rows: &mut Vec<Row>,
) -> Result<(), AllocError>
    requires key { index.now.key_columns ≡ common columns.now index.now.columns }
    requires more { more.now ≡ others columns.now index.now.columns }
    ensures pairs { OnOk result (rows.new.items ≡
        rows.old.items ++ pairs_of columns.now index.now.columns index.now.rows row.now) }
    ensures cost { OnOk result ((d : ℕ) → length index.now.rows < 2 ^ d →
        steps.new ≤ steps.old + 2 * d) }
{
    let key = part_of(alloc, columns, index.key_columns(), row.values())?;
    let seconds = index.matches(&key, steps);
    push_seconds(alloc, index.columns(), more, row, seconds, rows)?;
    Ok(())
}

/// Each of the index's rows that agree with a row of the second's, combined with that.
fn push_agreed<L: Ledger>(
    alloc: Global,
    index: &Index,
    columns: &[u32],
    more: &[u32],
    second: &Row,
    steps: &mut Steps<L>,
    rows: &mut Vec<Row>,
) -> Result<(), AllocError>
    requires key { index.now.key_columns ≡ common index.now.columns columns.now }
    requires more { more.now ≡ others index.now.columns columns.now }
    ensures { OnOk result (rows.new.items ≡
        rows.old.items ++ pairs_with index.now.columns columns.now index.now.rows second.now) }
{
    let key = part_of(alloc, columns, index.key_columns(), second.values())?;
    let firsts = index.matches(&key, steps);
    push_firsts(alloc, columns, more, firsts, second, rows)?;
    Ok(())
}

/// The rows of all pairs that agree, the second of each being the index's.
#[tactic(auto, unfolding(crate::specs::Operations::pairs))]
pub(crate) fn matched_pairs<L: Ledger>(
    alloc: Global,
    columns: &[u32],
    rows: &[Row],
    index: &Index,
    steps: &mut Steps<L>,
) -> Result<Vec<Row>, AllocError>
    requires key { index.now.key_columns ≡ common columns.now index.now.columns }
    ensures pairs { IfOk result (λ all.
        all.items ≡ pairs columns.now index.now.columns rows.now index.now.rows) }
    ensures cost { OnOk result ((d : ℕ) → length index.now.rows < 2 ^ d →
        steps.new ≤ steps.old + length rows.now * (2 * d)) }
{
    let more = others(alloc, columns, index.columns())?;
    let mut all = Vec::new(alloc);
    for row in rows {
        push_agreeing(alloc, columns, more.as_slice(), row, index, steps, &mut all)?;
    }
    Ok(all)
}

/// The rows of all pairs that agree, the first of each being the index's.
#[tactic(auto, unfolding(crate::specs::Operations::turned_pairs))]
pub(crate) fn turned_pairs<L: Ledger>(
    alloc: Global,
    index: &Index,
    columns: &[u32],
    rows: &[Row],
    steps: &mut Steps<L>,
) -> Result<Vec<Row>, AllocError>
    requires key { index.now.key_columns ≡ common index.now.columns columns.now }
    ensures { IfOk result (λ all.
        all.items ≡ turned_pairs index.now.columns columns.now index.now.rows rows.now) }
{
    let more = others(alloc, index.columns(), columns)?;
    let mut all = Vec::new(alloc);
    for row in rows {
        push_agreed(alloc, index, columns, more.as_slice(), row, steps, &mut all)?;
    }
    Ok(all)
}

/// Whether the index has the row's part at its columns, which are all the key's.
fn is_matched<L: Ledger>(
    alloc: Global,
    columns: &[u32],
    row: &Row,
    index: &Index,
    steps: &mut Steps<L>,
) -> Result<bool, AllocError>
    requires key { index.now.key_columns ≡ index.now.columns }
    ensures found { IfOk result (λ yes.
        yes ≡ has_row index.now.rows (part columns.now index.now.columns row.now)) }
    ensures cost { OnOk result ((d : ℕ) → length index.now.rows < 2 ^ d →
        steps.new ≤ steps.old + 2 * d) }
{
    let key = part_of(alloc, columns, index.key_columns(), row.values())?;
    Ok(index.has(&key, steps))
}

/// The rows with which no row of the index agrees.
pub(crate) fn unmatched<L: Ledger>(
    alloc: Global,
    columns: &[u32],
    rows: &[Row],
    index: &Index,
    steps: &mut Steps<L>,
) -> Result<Vec<Row>, AllocError>
    requires key { index.now.key_columns ≡ index.now.columns }
    ensures kept { IfOk result (λ kept. kept.items ≡
        filter (λ row. not (has_row index.now.rows (part columns.now index.now.columns row)))
        rows.now) }
    ensures cost { OnOk result ((d : ℕ) → length index.now.rows < 2 ^ d →
        steps.new ≤ steps.old + length rows.now * (2 * d)) }
{
    let mut kept = Vec::new(alloc);
    for row in rows {
        if !is_matched(alloc, columns, row, index, steps)? {
            kept.push(row.copy(alloc)?)?;
        }
    }
    Ok(kept)
}
