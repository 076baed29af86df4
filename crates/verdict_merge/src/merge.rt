//! Rows of many workers, merged.
ghost use Rattle.std.specs.Prelude.{◌≡◌, ◌<◌, IfOk, IsPermutation, length};
ghost use Rattle.std.specs.List.{flat_map};
ghost use Rattle.mfotl_model.specs.Ascending.{ascending};
ghost use Rattle.mfotl_model.specs.Values.{row_cmp};

use itertools::Itertools;
use mfotl_model::{Row, RowList};
use std::alloc::{AllocError, Global};

/// The rows of one list in ascending order, each once.
pub fn ordered(rows: Vec<Row>) -> RowList
    ensures { result ≡ ascending row_cmp rows.items }
{
    if rows.len() < 2 {
        return RowList::new(rows);
    }
    RowList::in_order(rows)
}

/// All rows of these lists in ascending order, each once. A list that is alone is not merged.
pub fn merged(alloc: Global, lists: Vec<Vec<Row>>) -> Result<RowList, AllocError>
    ensures { IfOk result (λ rows. rows ≡ ascending row_cmp (flat_map (λ list. list.items) lists.items)) }
{
    if lists.len() < 2 {
        return Ok(ordered(only(alloc, lists)));
    }
    let rows = all_rows(alloc, lists)?;
    Ok(RowList::in_order(rows))
}

// The rows of the one list, if there is one.
fn only(alloc: Global, mut lists: Vec<Vec<Row>>) -> Vec<Row>
    requires { length lists.items < 2 }
    ensures { result.items ≡ flat_map (λ list. list.items) lists.items }
{
    match lists.pop() {
        Some(list) => list,
        None => Vec::new(alloc),
    }
}

// All rows of these lists. Where each list ascends they do.
fn all_rows(alloc: Global, lists: Vec<Vec<Row>>) -> Result<Vec<Row>, AllocError>
    ensures { IfOk result (λ rows. IsPermutation (flat_map (λ list. list.items) lists.items) rows.items) }
{
    let rows = lists.into_iter().kmerge(alloc)?;
    rows.collect_vec(alloc)
}
