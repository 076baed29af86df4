//! Indexes, and the operations by them.
ghost use Rattle.std.specs.Prelude.{◌≡◌, ◌<◌, ◌∷◌, [], IfOk, IsTrue};
ghost use Rattle.mfotl_model.specs.Tables.{all_among};

use crate::tables::{X, Y, first, key, one, put, put_table, second, twos};
use relations::{Columns, Index, Steps, Table};
use std::alloc::{AllocError, Global};
use std::marker::Brand;
use std::sync::ledger::{Blank, Ledger};

/// Puts the lines of all these cases.
pub fn put_cases(alloc: Global, told: &mut Vec<u8>) -> Result<(), AllocError> {
    put_counted::<Brand>(alloc, told, Blank::new(1))
}

fn put_counted<L: Ledger>(alloc: Global, told: &mut Vec<u8>, blank: Blank) -> Result<(), AllocError>
    requires name { blank.name ≡ L.name }
    requires parts { blank.parts ≡ L.parts }
    requires some { 0 < blank.parts }
{
    let mut steps = Steps::<L>::new(blank);
    put_with(alloc, &mut steps, told)
}

fn put_with<L: Ledger>(
    alloc: Global,
    steps: &mut Steps<L>,
    told: &mut Vec<u8>,
) -> Result<(), AllocError> {
    joined(alloc, steps, told)?;
    antijoined(alloc, steps, told)?;
    matches(alloc, &[(1, 2), (3, 2), (4, 5)], 2, steps, told)?;
    matches(alloc, &[(1, 2), (3, 2), (4, 5)], 9, steps, told)?;
    matches(alloc, &[], 2, steps, told)
}

// A table's rows by what they have in y.
fn by_y(alloc: Global, table: &Table) -> Result<Index, AllocError>
    requires inside { IsTrue (all_among (1 ∷ []) table.now.columns) }
    ensures columns { IfOk result (λ index. index.columns ≡ table.now.columns) }
    ensures key_columns { IfOk result (λ index. index.key_columns ≡ 1 ∷ []) }
{
    table.index(alloc, Columns::from_slice(alloc, &[Y])?)
}

// A table over x and y, joined with one over y and z.
fn put_joined<L: Ledger>(
    alloc: Global,
    left: &Table,
    right: &Table,
    steps: &mut Steps<L>,
    told: &mut Vec<u8>,
) -> Result<(), AllocError>
    requires left { left.now.columns ≡ 0 ∷ 1 ∷ [] }
    requires right { right.now.columns ≡ 1 ∷ 2 ∷ [] }
{
    let index = by_y(alloc, right)?;
    put_table(told, "join by an index", left.join_by(alloc, &index, steps))
}

fn joined<L: Ledger>(
    alloc: Global,
    steps: &mut Steps<L>,
    told: &mut Vec<u8>,
) -> Result<(), AllocError> {
    let (left, right) = (first(alloc)?, second(alloc)?);
    put_joined(alloc, &left, &right, steps, told)
}

// A table over x and y without what one over y has.
fn put_antijoined<L: Ledger>(
    alloc: Global,
    left: &Table,
    right: &Table,
    steps: &mut Steps<L>,
    told: &mut Vec<u8>,
) -> Result<(), AllocError>
    requires left { left.now.columns ≡ 0 ∷ 1 ∷ [] }
    requires right { right.now.columns ≡ 1 ∷ [] }
{
    let index = by_y(alloc, right)?;
    put_table(
        told,
        "antijoin by an index",
        left.antijoin_by(alloc, &index, steps),
    )
}

fn antijoined<L: Ledger>(
    alloc: Global,
    steps: &mut Steps<L>,
    told: &mut Vec<u8>,
) -> Result<(), AllocError> {
    let (left, right) = (first(alloc)?, key(alloc)?);
    put_antijoined(alloc, &left, &right, steps, told)
}

// These rows over x and y, by what they have in y.
fn pairs_by_y(alloc: Global, rows: &[(i64, i64)]) -> Result<Index, AllocError> {
    let table = twos(alloc, &[X, Y], rows)?;
    by_y(alloc, &table)
}

// The rows that have the value in y.
fn matches<L: Ledger>(
    alloc: Global,
    rows: &[(i64, i64)],
    value: i64,
    steps: &mut Steps<L>,
    told: &mut Vec<u8>,
) -> Result<(), AllocError> {
    let index = pairs_by_y(alloc, rows)?;
    put_matches(alloc, &index, value, steps, told)
}

fn put_matches<L: Ledger>(
    alloc: Global,
    index: &Index,
    value: i64,
    steps: &mut Steps<L>,
    told: &mut Vec<u8>,
) -> Result<(), AllocError> {
    let key = one(alloc, value)?;
    put(told, "matches", index.matches(&key, steps))
}
