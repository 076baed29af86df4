//! The entries of each row, found by its hash.
ghost use Rattle.std.specs.Prelude.{◌≡◌, ◌||◌, ◌&&◌, ◌∷◌, ◌++◌, [], List, ℕ, IfOk, IfSome, IsTrue, OnOk, cond};
ghost use Rattle.std.specs.BTreeMap.{is_at};
ghost use Rattle.std.specs.List.{list_any};
ghost use Rattle.std.specs.List.Sorted.{IsStrictlySortedBy};
ghost use Rattle.std.specs.Ordering.{eq_by_cmp};
ghost use Rattle.mfotl_model.specs.Tables.{has_row, part};
ghost use Rattle.mfotl_model.specs.Values.{row_cmp};
ghost use Rattle.mfotl_model.specs.declared.value.Value.{Value};
ghost use Rattle.relations.specs.KeptRows.{RowsDiffer, list_for};
ghost use Rattle.until_rows.specs.ByKey.{Listed};
ghost use Rattle.until_rows.specs.declared.entries.Entry.{Entry};
ghost use Rattle.until_rows.specs.Entries.{from_place, met_by};
ghost use Rattle.until_rows.specs.Rules.{NoneEmpty, all_before};
ghost use Rattle.until_rows.specs.Starts.{start_of};

use crate::by_key::RowsByKey;
use crate::entries::{Entries, Entry};
use crate::run_starts::RunStarts;
use mfotl_model::{Interval, Row};
use relations::part_of;
use std::alloc::{AllocError, Global};
use std::collections::HashMap;
use std::collections::hash_map::Entry as Slot;

// the entries of a row, with one more
fn add_entry(
    alloc: Global,
    rows: &mut HashMap<Row, Entries>,
    row: Row,
    entry: Entry,
) -> Result<(), AllocError>
    requires { IsTrue (all_before entry.place (list_for rows.old.entries row)) }
    ensures entries { OnOk result ((u : List Value) → list_for rows.new.entries u
        ≡ cond (is_at (row_cmp row) u) (list_for rows.old.entries u ++ entry ∷ [])
        (list_for rows.old.entries u)) }
    ensures some { OnOk result (NoneEmpty rows.old.entries → NoneEmpty rows.new.entries) }
{
    let entries = rows.entry(row)?.or_insert(Entries::new());
    entries.push(alloc, entry)?;
    Ok(())
}

// where the run begins that a row's part at the left operand's columns has
fn part_start(
    alloc: Global,
    starts: &RunStarts,
    right: &[u32],
    left: &[u32],
    negated: bool,
    row: &Row,
    place: u64,
) -> Result<u64, AllocError>
    ensures { IfOk result (λ start.
        start ≡ start_of negated place starts.now (part right.now left.now row.now)) }
{
    let key = part_of(alloc, right, left, row.values())?;
    Ok(starts.start_at(negated, place, &key))
}

// adds one row at the position `place`, as `add_rows` does
fn add_row(
    alloc: Global,
    rows: &mut HashMap<Row, Entries>,
    starts: &RunStarts,
    right: &[u32],
    left: &[u32],
    negated: bool,
    row: &Row,
    place: u64,
    ts: u64,
) -> Result<(), AllocError>
    requires { IsTrue (all_before place (list_for rows.old.entries row.now)) }
    ensures entries { OnOk result ((u : List Value) → list_for rows.new.entries u
        ≡ cond (is_at (row_cmp row.now) u) (list_for rows.old.entries u ++ record {
          place = place;
          start = start_of negated place starts.now (part right.now left.now row.now);
          ts = ts;
        } ∷ [])
        (list_for rows.old.entries u)) }
    ensures some { OnOk result (NoneEmpty rows.old.entries → NoneEmpty rows.new.entries) }
{
    let start = part_start(alloc, starts, right, left, negated, row, place)?;
    add_entry(alloc, rows, row.copy(alloc)?, Entry { place, start, ts })?;
    Ok(())
}

/// Adds the rows of the right operand's table at the position `place`, which none of the entries
/// reaches yet.
pub fn add_rows(
    alloc: Global,
    rows: &mut HashMap<Row, Entries>,
    starts: &RunStarts,
    right: &[u32],
    left: &[u32],
    negated: bool,
    table: &[Row],
    place: u64,
    ts: u64,
) -> Result<(), AllocError>
    requires sorted { IsStrictlySortedBy row_cmp table.now }
    requires before { (u : List Value) → IsTrue (all_before place (list_for rows.old.entries u)) }
    ensures entries { OnOk result ((u : List Value) → list_for rows.new.entries u
        ≡ cond (has_row table.now u) (list_for rows.old.entries u ++ record {
          place = place;
          start = start_of negated place starts.now (part right.now left.now u);
          ts = ts;
        } ∷ [])
        (list_for rows.old.entries u)) }
    ensures some { OnOk result (NoneEmpty rows.old.entries → NoneEmpty rows.new.entries) }
{
    for row in table {
        add_row(alloc, rows, starts, right, left, negated, row, place, ts)?;
    }
    Ok(())
}

// forgets what stands before the position `next`, of one row, which is given where nothing is left of it
fn forget_row(rows: &mut HashMap<Row, Entries>, row: Row, next: u64) -> Option<Row>
    ensures entries { (u : List Value) → list_for rows.new.entries u
        ≡ cond (is_at (row_cmp row) u) (from_place next (list_for rows.old.entries u))
        (list_for rows.old.entries u) }
    ensures some { NoneEmpty rows.old.entries → NoneEmpty rows.new.entries }
    ensures gone { IfSome result (λ gone. list_for rows.new.entries gone ≡ []) }
{
    let slot = match rows.entry(row) {
        Ok(slot) => slot,
        Err(_absent) => return None,
    };
    match slot {
        Slot::Occupied(mut kept) => {
            let entries = kept.get_mut();
            entries.forget(next);
            if entries.is_empty() {
                let (gone, _) = kept.remove_entry();
                Some(gone)
            } else {
                None
            }
        }
        Slot::Vacant(vacant) => {
            drop(vacant.into_key());
            None
        }
    }
}

// A row of which nothing is left needn't be listed any more. Without memory it stays.
fn unlist(alloc: Global, by_key: &mut RowsByKey, right: &[u32], gone: Option<Row>)
    ensures listed { (rows : List (List Value × List Entry)) → IfSome gone (λ row. list_for rows row ≡ []) →
        Listed right.now by_key.old rows → Listed right.now by_key.new rows }
    ensures keys { by_key.new.columns ≡ by_key.old.columns }
{
    if let Some(row) = gone {
        let _ = by_key.remove(alloc, right, &row);
    }
}

/// Forgets what stands before the position `next`, of these rows, and those of which nothing is left.
pub fn forget_rows(
    alloc: Global,
    rows: &mut HashMap<Row, Entries>,
    by_key: &mut RowsByKey,
    right: &[u32],
    table: Vec<Row>,
    next: u64,
)
    ensures entries { (u : List Value) → list_for rows.new.entries u
        ≡ cond (has_row table.items u) (from_place next (list_for rows.old.entries u))
        (list_for rows.old.entries u) }
    ensures some { NoneEmpty rows.old.entries → NoneEmpty rows.new.entries }
    ensures listed { Listed right.now by_key.old rows.old.entries → Listed right.now by_key.new rows.new.entries }
    ensures keys { by_key.new.columns ≡ by_key.old.columns }
{
    for row in table {
        let gone = forget_row(rows, row, next);
        unlist(alloc, by_key, right, gone);
    }
}

/// Appends the rows of which some entry meets UNTIL at the position `i`, whose time is `x`.
pub fn push_met(
    alloc: Global,
    rows: &HashMap<Row, Entries>,
    out: &mut Vec<Row>,
    interval: &Interval,
    i: u64,
    x: u64,
) -> Result<(), AllocError>
    ensures rows { OnOk result ((u : List Value) → has_row out.new.items u
        ≡ (has_row out.old.items u
        || list_any (λ e. eq_by_cmp row_cmp u e.0 && met_by interval.now i x e.1) rows.now.entries)) }
    ensures differ { RowsDiffer rows.now.entries }
{
    for (row, entries) in rows {
        if entries.met(interval, i, x) {
            out.push(row.copy(alloc)?)?;
        }
    }
    Ok(())
}
