//! Lists of rows.
ghost use Rattle.std.specs.Prelude.{◌≡◌, ◌++◌, ◌∷◌, [], ◌≤◌, IfOk, OnOk, OnErr, length, insert, not};
ghost use Rattle.std.specs.BTreeSet.{insert_key};
ghost use Rattle.std.specs.List.Sorted.{IsStrictlySortedBy};
ghost use Rattle.mfotl_model.specs.Tables.{has_row};
ghost use Rattle.mfotl_model.specs.Values.{row_cmp};

use mfotl_model::Row;
use std::alloc::{AllocError, Global};

pub(crate) fn empty_row(alloc: Global) -> Result<Vec<Row>, AllocError>
    ensures { IfOk result (λ rows. rows.items ≡ [] ∷ []) }
{
    let mut rows = Vec::new(alloc);
    rows.push(Row::empty())?;
    Ok(rows)
}

pub(crate) fn push_rows(alloc: Global, more: &[Row], rows: &mut Vec<Row>) -> Result<(), AllocError>
    ensures { OnOk result (rows.new.items ≡ rows.old.items ++ more.now) }
{
    for row in more {
        rows.push(row.copy(alloc)?)?;
    }
    Ok(())
}

pub(crate) fn copied_rows(alloc: Global, rows: &[Row]) -> Result<Vec<Row>, AllocError>
    ensures { IfOk result (λ copies. copies.items ≡ rows.now) }
{
    let mut copies = Vec::with_capacity(alloc, rows.len())?;
    push_rows(alloc, rows, &mut copies)?;
    Ok(copies)
}

/// Whether the row is among these.
pub(crate) fn has_row(rows: &[Row], row: &Row) -> bool
    requires sorted { IsStrictlySortedBy row_cmp rows.now }
    ensures { result ≡ has_row rows.now row.now }
{
    rows.binary_search(row).is_ok()
}

fn insert_at(rows: &mut Vec<Row>, place: usize, row: Row) -> Result<(), AllocError>
    requires { place ≤ length rows.old.items }
    ensures rows { OnOk result (rows.new.items ≡ insert rows.old.items place row) }
    ensures old { OnErr result (rows.new.items ≡ rows.old.items) }
{
    match rows.insert(place, row) {
        Ok(()) => Ok(()),
        Err(_) => Err(AllocError),
    }
}

pub(crate) fn insert_row(rows: &mut Vec<Row>, row: Row) -> Result<bool, AllocError>
    requires sorted { IsStrictlySortedBy row_cmp rows.old.items }
    ensures rows { OnOk result (rows.new.items ≡ insert_key row_cmp rows.old.items row) }
    ensures old { OnErr result (rows.new.items ≡ rows.old.items) }
    ensures is_new { IfOk result (λ new. new ≡ not (has_row rows.old.items row)) }
{
    match rows.binary_search(&row) {
        Ok(_) => Ok(false),
        Err(place) => {
            if let Err(error) = insert_at(rows, place, row) {
                return Err(error);
            }
            Ok(true)
        }
    }
}
