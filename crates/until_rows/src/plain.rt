//! The rows of plain data, out of maps and back.
ghost use Rattle.std.specs.Prelude.{◌≡◌, List, None, Some, IfOk, OnOk, cond, map, true};
ghost use Rattle.std.specs.BTreeMap.{is_at};
ghost use Rattle.std.specs.List.{AllByRecursion, list_all};
ghost use Rattle.mfotl_model.specs.Values.{row_cmp};
ghost use Rattle.mfotl_model.specs.declared.value.Value.{Value};
ghost use Rattle.relations.specs.KeptRows.{RowsAscend, kept_for, last_for};
ghost use Rattle.until_rows.specs.Recalled.{entries_kept, entry_at, starts_kept};
ghost use Rattle.until_rows.specs.Rules.{PlacesAscend};
ghost use Rattle.until_rows.specs.Timed.{has_time, is_timed};

use crate::entries::{Entries, Entry};
use crate::recalled::{KeptMarks, KeptStart, Mark};
use mfotl_model::Row;
use std::alloc::{AllocError, Global};
use std::collections::{BTreeMap, VecDeque};

/// The starts of these rows.
pub fn starts_map(alloc: Global, starts: Vec<KeptStart>) -> Result<BTreeMap<Row, u64>, AllocError>
    ensures found { IfOk result (λ map. (w : List Value) →
        kept_for map.entries w ≡ last_for (starts_kept starts.items) w None) }
    ensures ascend { IfOk result (λ map. RowsAscend map.entries) }
{
    let mut map = BTreeMap::new(alloc);
    for kept in starts {
        map.insert(kept.row, kept.start)?;
    }
    Ok(map)
}

fn entry_of(mark: Mark, pulled: u64, times: &[u64]) -> Entry
    requires { has_time pulled times.now (entry_at pulled times.now mark) ≡ true }
    ensures { result ≡ entry_at pulled times.now mark }
{
    let Mark { place, start } = mark;
    let index = place.saturating_sub(pulled) as usize;
    Entry {
        place,
        start,
        ts: times[index],
    }
}

fn entries_of(
    alloc: Global,
    marks: &[Mark],
    pulled: u64,
    times: &[u64],
) -> Result<Vec<Entry>, AllocError>
    requires { list_all (has_time pulled times.now) (map (entry_at pulled times.now) marks.now) ≡ true }
    ensures { IfOk result (λ entries. entries.items ≡ map (entry_at pulled times.now) marks.now) }
{
    let mut entries = Vec::with_capacity(alloc, marks.len())?;
    for mark in marks {
        entries.push(entry_of(*mark, pulled, times))?;
    }
    Ok(entries)
}

fn entries_at(
    alloc: Global,
    marks: &[Mark],
    pulled: u64,
    times: &[u64],
) -> Result<Entries, AllocError>
    requires places { PlacesAscend (map (entry_at pulled times.now) marks.now) }
    requires timed { list_all (has_time pulled times.now) (map (entry_at pulled times.now) marks.now) ≡ true }
    ensures { IfOk result (λ entries. entries ≡ map (entry_at pulled times.now) marks.now) }
{
    let list = entries_of(alloc, marks, pulled, times)?;
    let entries = Entries::from_vec(alloc, list)?;
    Ok(entries)
}

// puts a row, with the entries of its marks
fn put_marks(
    alloc: Global,
    rows: &mut BTreeMap<Row, Entries>,
    kept: KeptMarks,
    pulled: u64,
    times: &[u64],
) -> Result<(), AllocError>
    requires places { PlacesAscend (map (entry_at pulled times.now) kept.marks.items) }
    requires timed { list_all (has_time pulled times.now) (map (entry_at pulled times.now) kept.marks.items) ≡ true }
    ensures found { OnOk result ((u : List Value) → kept_for rows.new.entries u
        ≡ cond (is_at (row_cmp kept.row) u) (Some (map (entry_at pulled times.now) kept.marks.items))
        (kept_for rows.old.entries u)) }
    ensures ascend { OnOk result (RowsAscend rows.new.entries) }
{
    let entries = entries_at(alloc, kept.marks.as_slice(), pulled, times)?;
    rows.insert(kept.row, entries)?;
    Ok(())
}

/// The entries of these rows, where `times` are those of the positions from `pulled` on.
pub fn rows_map(
    alloc: Global,
    rows: Vec<KeptMarks>,
    pulled: u64,
    times: &[u64],
) -> Result<BTreeMap<Row, Entries>, AllocError>
    requires places { AllByRecursion (λ r. PlacesAscend r.1) (entries_kept pulled times.now rows.items) }
    requires timed { AllByRecursion (λ r. list_all (has_time pulled times.now) r.1 ≡ true)
        (entries_kept pulled times.now rows.items) }
    ensures found { IfOk result (λ map. (u : List Value) →
        kept_for map.entries u ≡ last_for (entries_kept pulled times.now rows.items) u None) }
    ensures ascend { IfOk result (λ map. RowsAscend map.entries) }
{
    let mut map = BTreeMap::new(alloc);
    for kept in rows {
        put_marks(alloc, &mut map, kept, pulled, times)?;
    }
    Ok(map)
}

/// The rows with their starts, in order.
pub fn kept_starts(alloc: Global, starts: &BTreeMap<Row, u64>) -> Result<Vec<KeptStart>, AllocError>
    ensures starts { IfOk result (λ kept. starts_kept kept.items ≡ starts.now.entries) }
    ensures ascend { IfOk result (λ _. RowsAscend starts.now.entries) }
{
    let mut kept = Vec::with_capacity(alloc, starts.len())?;
    for (row, start) in starts {
        kept.push(KeptStart {
            row: row.copy(alloc)?,
            start: *start,
        })?;
    }
    Ok(kept)
}

// a copy of a row, with the marks of its entries
fn marks_of(
    alloc: Global,
    row: &Row,
    entries: &Entries,
    pulled: u64,
    times: &VecDeque<u64>,
) -> Result<KeptMarks, AllocError>
    requires { list_all (is_timed pulled times.now.items) entries.now ≡ true }
    ensures row { IfOk result (λ kept. kept.row ≡ row.now) }
    ensures marks { IfOk result (λ kept.
        map (entry_at pulled times.now.items) kept.marks.items ≡ entries.now) }
{
    let marks = entries.marks(alloc, pulled, times)?;
    let row = row.copy(alloc)?;
    Ok(KeptMarks { row, marks })
}

/// The rows with their marks, in order, where `times` are those of the positions from `pulled` on. No time is looked up:
/// the promise alone names them.
pub fn kept_marks(
    alloc: Global,
    rows: &BTreeMap<Row, Entries>,
    pulled: u64,
    times: &VecDeque<u64>,
) -> Result<Vec<KeptMarks>, AllocError>
    requires timed { AllByRecursion (λ r. list_all (is_timed pulled times.now.items) r.1 ≡ true) rows.now.entries }
    ensures rows { IfOk result (λ kept.
        entries_kept pulled times.now.items kept.items ≡ rows.now.entries) }
    ensures ascend { IfOk result (λ _. RowsAscend rows.now.entries) }
{
    let mut kept = Vec::with_capacity(alloc, rows.len())?;
    for (row, entries) in rows {
        kept.push(marks_of(alloc, row, entries, pulled, times)?)?;
    }
    Ok(kept)
}
