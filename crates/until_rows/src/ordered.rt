//! Maps that find a row by its hash, out of maps that have the rows in order, and back.
ghost use Rattle.std.specs.Prelude.{◌≡◌, IfOk, List, None, OnOk, Some, cond};
ghost use Rattle.std.specs.BTreeMap.{is_at};
ghost use Rattle.mfotl_model.specs.Values.{row_cmp};
ghost use Rattle.mfotl_model.specs.declared.value.Value.{Value};
ghost use Rattle.relations.specs.KeptRows.{RowsAscend, RowsDiffer, kept_for, last_for};

use crate::entries::Entries;
use mfotl_model::Row;
use std::alloc::{AllocError, Global};
use std::collections::{BTreeMap, HashMap};

/// These entries, each found by its row's hash.
pub fn hashed_rows(
    alloc: Global,
    rows: BTreeMap<Row, Entries>,
) -> Result<HashMap<Row, Entries>, AllocError>
    ensures found { IfOk result (λ map. (u : List Value) →
        kept_for map.entries u ≡ last_for rows.entries u None) }
    ensures ascend { IfOk result (λ _. RowsAscend rows.entries) }
{
    let mut map = HashMap::new(alloc);
    for (row, entries) in rows {
        map.insert(row, entries)?;
    }
    Ok(map)
}

/// Copies of these starts, by ascending rows.
pub fn ordered_starts(
    alloc: Global,
    starts: &HashMap<Row, u64>,
) -> Result<BTreeMap<Row, u64>, AllocError>
    ensures found { IfOk result (λ map. (u : List Value) →
        kept_for map.entries u ≡ last_for starts.now.entries u None) }
    ensures ascend { IfOk result (λ map. RowsAscend map.entries) }
    ensures differ { IfOk result (λ _. RowsDiffer starts.now.entries) }
{
    let mut map = BTreeMap::new(alloc);
    for (row, start) in starts {
        map.insert(row.copy(alloc)?, *start)?;
    }
    Ok(map)
}

fn put_copy(
    alloc: Global,
    map: &mut BTreeMap<Row, Entries>,
    row: &Row,
    entries: &Entries,
) -> Result<(), AllocError>
    ensures found { OnOk result ((u : List Value) → kept_for map.new.entries u
        ≡ cond (is_at (row_cmp row.now) u) (Some entries.now) (kept_for map.old.entries u)) }
    ensures ascend { OnOk result (RowsAscend map.new.entries) }
{
    let entries = entries.copy(alloc)?;
    map.insert(row.copy(alloc)?, entries)?;
    Ok(())
}

/// Copies of these entries, by ascending rows.
pub fn ordered_rows(
    alloc: Global,
    rows: &HashMap<Row, Entries>,
) -> Result<BTreeMap<Row, Entries>, AllocError>
    ensures found { IfOk result (λ map. (u : List Value) →
        kept_for map.entries u ≡ last_for rows.now.entries u None) }
    ensures ascend { IfOk result (λ map. RowsAscend map.entries) }
    ensures differ { IfOk result (λ _. RowsDiffer rows.now.entries) }
{
    let mut map = BTreeMap::new(alloc);
    for (row, entries) in rows {
        put_copy(alloc, &mut map, row, entries)?;
    }
    Ok(map)
}
