//! Where the rows of a group stand: a lone one in place, a few in a list, many in a map.
ghost use Rattle.std.specs.Prelude.{◌≡◌, ◌∷◌, ◌<◌, [], IfOk, List, cond, length};
ghost use Rattle.std.specs.BTreeMap.{is_at};
ghost use Rattle.mfotl_model.specs.Values.{row_cmp};
ghost use Rattle.mfotl_model.specs.declared.value.Value.{Value};
ghost use Rattle.relations.specs.KeptRows.{list_for};
ghost use Rattle.row_times.specs.Groups.{HaveTimes};
ghost use Rattle.row_times.specs.HeldTimes.{held_times};
ghost use Rattle.row_times.specs.Times.{ArePast, added, recent};

use crate::few::FewRows;
use crate::hashed::Hashed;
use crate::times::Times;
use mfotl_model::Row;
use std::alloc::{AllocError, Global};

// Most groups by a key have one row or a few, and a map takes much more memory than that, even if it is empty.
#[derive(Drop)]
pub(crate) enum Held {
    Zero,
    One(Row, Times),
    Few(FewRows),
    Many(Box<Hashed>),
}

fn first_time(alloc: Global, row: Row, x: u64, bounded: bool) -> Result<Held, AllocError>
    ensures times { IfOk result (λ held. (v : List Value) → list_for (held_times held) v
        ≡ cond (is_at (row_cmp row) v) (added bounded [] x) []) }
    ensures some { IfOk result (λ held. HaveTimes (held_times held)) }
{
    let times = Times::first(alloc, x, bounded)?;
    Ok(Held::One(row, times))
}

fn other_time(
    alloc: Global,
    first: Row,
    times: Times,
    row: Row,
    x: u64,
    bounded: bool,
) -> Result<Held, AllocError>
    requires { ArePast x (list_for ((first, times) ∷ []) row) }
    ensures times { IfOk result (λ held. (v : List Value) → list_for (held_times held) v
        ≡ cond (is_at (row_cmp row) v)
        (added bounded (list_for ((first, times) ∷ []) v) x) (list_for ((first, times) ∷ []) v)) }
    ensures some { IfOk result (λ held.
        HaveTimes ((first, times) ∷ []) → HaveTimes (held_times held)) }
{
    let mut rows = FewRows::one(alloc, first, times)?;
    rows.add(alloc, row, x, bounded)?;
    Ok(Held::Few(rows))
}

fn next_time(
    alloc: Global,
    first: Row,
    mut times: Times,
    row: Row,
    x: u64,
    bounded: bool,
) -> Result<Held, AllocError>
    requires { ArePast x (list_for ((first, times) ∷ []) row) }
    ensures times { IfOk result (λ held. (v : List Value) → list_for (held_times held) v
        ≡ cond (is_at (row_cmp row) v)
        (added bounded (list_for ((first, times) ∷ []) v) x) (list_for ((first, times) ∷ []) v)) }
    ensures some { IfOk result (λ held.
        HaveTimes ((first, times) ∷ []) → HaveTimes (held_times held)) }
{
    if first == row {
        times.add(alloc, x, bounded)?;
        return Ok(Held::One(first, times));
    }
    other_time(alloc, first, times, row, x, bounded)
}

// One row more than few.
fn many_times(
    alloc: Global,
    few: FewRows,
    row: Row,
    x: u64,
    bounded: bool,
) -> Result<Held, AllocError>
    requires { ArePast x (list_for few row) }
    ensures times { IfOk result (λ held. (v : List Value) → list_for (held_times held) v
        ≡ cond (is_at (row_cmp row) v) (added bounded (list_for few v) x) (list_for few v)) }
    ensures some { IfOk result (λ held. HaveTimes few → HaveTimes (held_times held)) }
{
    let mut rows = few.into_hashed(alloc)?;
    rows.add(alloc, row, x, bounded)?;
    Ok(Held::Many(Box::new(alloc, rows)?))
}

pub(crate) fn with_time(
    alloc: Global,
    held: Held,
    row: Row,
    x: u64,
    bounded: bool,
) -> Result<Held, AllocError>
    requires { ArePast x (list_for (held_times held) row) }
    ensures times { IfOk result (λ more. (v : List Value) → list_for (held_times more) v
        ≡ cond (is_at (row_cmp row) v)
        (added bounded (list_for (held_times held) v) x) (list_for (held_times held) v)) }
    ensures some { IfOk result (λ more. HaveTimes (held_times held) → HaveTimes (held_times more)) }
{
    match held {
        Held::Zero => first_time(alloc, row, x, bounded),
        Held::One(first, times) => next_time(alloc, first, times, row, x, bounded),
        Held::Few(rows) => many_times(alloc, rows, row, x, bounded),
        Held::Many(mut rows) => {
            rows.add(alloc, row, x, bounded)?;
            Ok(Held::Many(rows))
        }
    }
}

fn same_recent(first: Row, mut times: Times, hi: u64, now: u64) -> Held
    ensures times { (v : List Value) → list_for (held_times result) v
        ≡ list_for ((first, recent hi now times) ∷ []) v }
    ensures some { HaveTimes (held_times result) }
{
    times.forget(hi, now);
    if times.is_empty() {
        return Held::Zero;
    }
    Held::One(first, times)
}

fn one_recent(first: Row, times: Times, row: &Row, hi: u64, now: u64) -> Held
    ensures times { (v : List Value) → list_for (held_times result) v
        ≡ cond (is_at (row_cmp row.now) v)
        (recent hi now (list_for ((first, times) ∷ []) v)) (list_for ((first, times) ∷ []) v) }
    ensures some { HaveTimes ((first, times) ∷ []) → HaveTimes (held_times result) }
{
    if first == *row {
        return same_recent(first, times, hi, now);
    }
    Held::One(first, times)
}

pub(crate) fn with_recent(held: Held, row: Row, hi: u64, now: u64) -> Held
    ensures times { (v : List Value) → list_for (held_times result) v
        ≡ cond (is_at (row_cmp row) v)
        (recent hi now (list_for (held_times held) v)) (list_for (held_times held) v) }
    ensures some { HaveTimes (held_times held) → HaveTimes (held_times result) }
{
    match held {
        Held::Zero => Held::Zero,
        Held::One(first, times) => one_recent(first, times, &row, hi, now),
        Held::Few(mut rows) => {
            rows.forget(&row, hi, now);
            Held::Few(rows)
        }
        Held::Many(mut rows) => {
            rows.forget(row, hi, now);
            Held::Many(rows)
        }
    }
}

fn many_with_times(alloc: Global, few: FewRows, row: Row, times: Times) -> Result<Held, AllocError>
    ensures times { IfOk result (λ held. (v : List Value) → list_for (held_times held) v
        ≡ cond (is_at (row_cmp row) v) times (list_for few v)) }
    ensures some { IfOk result (λ held. 0 < length times → HaveTimes few → HaveTimes (held_times held)) }
{
    let mut rows = few.into_hashed(alloc)?;
    rows.put(alloc, row, times)?;
    Ok(Held::Many(Box::new(alloc, rows)?))
}

fn few_with_times(
    alloc: Global,
    mut few: FewRows,
    row: Row,
    times: Times,
) -> Result<Held, AllocError>
    ensures times { IfOk result (λ held. (v : List Value) → list_for (held_times held) v
        ≡ cond (is_at (row_cmp row) v) times (list_for few v)) }
    ensures some { IfOk result (λ held. 0 < length times → HaveTimes few → HaveTimes (held_times held)) }
{
    if !few.has_room_for(&row) {
        return many_with_times(alloc, few, row, times);
    }
    few.put(row, times)?;
    Ok(Held::Few(few))
}

pub(crate) fn with_times(
    alloc: Global,
    held: Held,
    row: Row,
    times: Times,
) -> Result<Held, AllocError>
    ensures times { IfOk result (λ more. (v : List Value) → list_for (held_times more) v
        ≡ cond (is_at (row_cmp row) v) times (list_for (held_times held) v)) }
    ensures some { IfOk result (λ more.
        0 < length times → HaveTimes (held_times held) → HaveTimes (held_times more)) }
{
    match held {
        Held::Zero => Ok(Held::One(row, times)),
        Held::One(first, kept) => {
            let mut rows = FewRows::one(alloc, first, kept)?;
            rows.put(row, times)?;
            Ok(Held::Few(rows))
        }
        Held::Few(rows) => few_with_times(alloc, rows, row, times),
        Held::Many(mut rows) => {
            rows.put(alloc, row, times)?;
            Ok(Held::Many(rows))
        }
    }
}
