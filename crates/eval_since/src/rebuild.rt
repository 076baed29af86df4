//! The rows of plain data, put back into groups, and the queue that finds their times.
ghost use Rattle.std.specs.Prelude.{◌≡◌, ◌||◌, ◌&&◌, ◌<◌, ◌∷◌, [], Bool, IfOk, List, OnOk, length, nat_eq, ℕ};
ghost use Rattle.std.specs.List.{AllByRecursion, list_all, list_any};
ghost use Rattle.std.specs.List.Sorted.{IsStrictlyIncreasing};
ghost use Rattle.mfotl_model.specs.Tables.{has_row};
ghost use Rattle.mfotl_model.specs.declared.value.Value.{Value};
ghost use Rattle.row_times.specs.Groups.{NoneEmpty, times_at};
ghost use Rattle.row_times.specs.PackedRows.{packed_rows};
ghost use Rattle.eval_since.specs.Recalled.{is_recalled, put_times};
ghost use Rattle.row_times.specs.KeptTimes.{times_kept};
ghost use Rattle.eval_since.specs.Windows.{EachHasRows, Rising, names};

use crate::contents::Dated;
use mfotl_model::Row;
use relations::part_of;
use row_times::{Groups, KeptRow, packed};
use std::alloc::{AllocError, Global};
use std::collections::VecDeque;

// puts a row with its times into the group of its part
fn put_kept(
    alloc: Global,
    groups: &mut Groups,
    right: &[u32],
    left: &[u32],
    kept: KeptRow,
) -> Result<(), AllocError>
    requires { IsStrictlyIncreasing kept.times.items }
    ensures times { OnOk result ((q v : List Value) → times_at groups.new q v
        ≡ put_times right.now left.now (times_kept (kept ∷ [])) q v (times_at groups.old q v)) }
    ensures some { OnOk result (0 < length kept.times.items → NoneEmpty groups.old → NoneEmpty groups.new) }
{
    let key = part_of(alloc, right, left, kept.row.values())?;
    groups.put(alloc, key, kept.row, kept.times)
}

/// The rows with their times, in the groups of their parts.
pub fn grouped(
    alloc: Global,
    right: &[u32],
    left: &[u32],
    rows: Vec<KeptRow>,
) -> Result<Groups, AllocError>
    requires { AllByRecursion (λ k. IsStrictlyIncreasing k.times.items) rows.items }
    ensures times { IfOk result (λ groups. (q v : List Value) → times_at groups q v
        ≡ put_times right.now left.now (times_kept rows.items) q v []) }
    ensures some { IfOk result (λ groups.
        AllByRecursion (λ k. 0 < length k.times.items) rows.items → NoneEmpty groups) }
{
    let mut groups = Groups::new(alloc);
    for kept in rows {
        put_kept(alloc, &mut groups, right, left, kept)?;
    }
    Ok(groups)
}

fn dated(alloc: Global, row: &Row, ts: u64) -> Result<Dated, AllocError>
    ensures ts { IfOk result (λ dated. dated.ts ≡ ts) }
    ensures rows { IfOk result (λ dated. packed_rows dated.rows ≡ row.now ∷ []) }
{
    let mut rows = Vec::with_capacity(alloc, 1)?;
    rows.push(row.copy(alloc)?)?;
    let rows = packed(alloc, rows)?;
    Ok(Dated { ts, rows })
}

// a row at each of its times
fn push_dated(
    alloc: Global,
    out: &mut Vec<Dated>,
    row: &Row,
    times: &[u64],
) -> Result<(), AllocError>
    ensures names { OnOk result ((v : List Value) (y : ℕ) → names out.new.items v y
        ≡ (names out.old.items v y || list_any (λ t. nat_eq t y && has_row (row.now ∷ []) v) times.now)) }
    ensures all { OnOk result ((test : ℕ → Bool) → list_all (λ d. test d.ts) out.new.items
        ≡ (list_all (λ d. test d.ts) out.old.items && list_all test times.now)) }
    ensures rows { OnOk result (EachHasRows out.old.items → EachHasRows out.new.items) }
{
    for ts in times {
        out.push(dated(alloc, row, *ts)?)?;
    }
    Ok(())
}

fn dated_list(alloc: Global, rows: &[KeptRow]) -> Result<Vec<Dated>, AllocError>
    ensures names { IfOk result (λ list. (v : List Value) (y : ℕ) →
        names list.items v y ≡ is_recalled rows.now v y) }
    ensures all { IfOk result (λ list. (test : ℕ → Bool) → list_all (λ d. test d.ts) list.items
        ≡ list_all (λ k. list_all test k.times.items) rows.now) }
    ensures rows { IfOk result (λ list. EachHasRows list.items) }
{
    let mut list = Vec::new(alloc);
    for kept in rows {
        push_dated(alloc, &mut list, &kept.row, kept.times.as_slice())?;
    }
    Ok(list)
}

/// Each of the times with its row, the earliest first.
pub fn dated_rows(alloc: Global, rows: &[KeptRow]) -> Result<VecDeque<Dated>, AllocError>
    ensures names { IfOk result (λ queue. (v : List Value) (y : ℕ) →
        names queue.items v y ≡ is_recalled rows.now v y) }
    ensures all { IfOk result (λ queue. (test : ℕ → Bool) → list_all (λ d. test d.ts) queue.items
        ≡ list_all (λ k. list_all test k.times.items) rows.now) }
    ensures rising { IfOk result (λ queue. Rising queue.items) }
    ensures rows { IfOk result (λ queue. EachHasRows queue.items) }
{
    let mut list = dated_list(alloc, rows)?;
    list.sort_unstable_by_key(|dated| dated.ts);
    Ok(VecDeque::from_vec(list))
}
