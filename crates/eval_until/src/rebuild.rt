//! The queue that finds what is pulled, made anew.
ghost use Rattle.std.specs.Prelude.{◌≡◌, ◌||◌, ◌&&◌, ◌∷◌, ◌-◌, [], ℕ, Bool, true, List, IfOk, OnOk, cond, nat_eq};
ghost use Rattle.std.specs.List.{list_all, list_any};
ghost use Rattle.mfotl_model.specs.Tables.{has_row};
ghost use Rattle.mfotl_model.specs.declared.value.Value.{Value};
ghost use Rattle.relations.specs.KeptRows.{RowsAscend};
ghost use Rattle.eval_until.specs.Keeping.{Rising, breaks_before, names};
ghost use Rattle.eval_until.specs.Recalled.{is_recalled, run_begins};

use crate::contents::Taken;
use mfotl_model::Row;
use std::alloc::{AllocError, Global};
use std::collections::{BTreeMap, VecDeque};
use until_rows::Entries;

fn one_row(alloc: Global, row: &Row) -> Result<Vec<Row>, AllocError>
    ensures { IfOk result (λ rows. rows.items ≡ row.now ∷ []) }
{
    let mut rows = Vec::with_capacity(alloc, 1)?;
    rows.push(row.copy(alloc)?)?;
    Ok(rows)
}

// a row of the right operand's table at a position
fn row_taken(alloc: Global, place: u64, row: &Row) -> Result<Taken, AllocError>
    ensures place { IfOk result (λ taken. taken.place ≡ place) }
    ensures rights { IfOk result (λ taken. taken.rights.items ≡ row.now ∷ []) }
    ensures breaks { IfOk result (λ taken. taken.breaks.items ≡ []) }
{
    Ok(Taken {
        place,
        rights: one_row(alloc, row)?,
        breaks: Vec::new(alloc),
    })
}

fn break_taken(alloc: Global, place: u64, row: &Row) -> Result<Taken, AllocError>
    ensures place { IfOk result (λ taken. taken.place ≡ place) }
    ensures rights { IfOk result (λ taken. taken.rights.items ≡ []) }
    ensures breaks { IfOk result (λ taken. taken.breaks.items ≡ row.now ∷ []) }
{
    Ok(Taken {
        place,
        rights: Vec::new(alloc),
        breaks: one_row(alloc, row)?,
    })
}

// puts a row, at the position of each of its entries, into a queue
fn push_entries(
    alloc: Global,
    out: &mut Vec<Taken>,
    row: &Row,
    entries: &Entries,
) -> Result<(), AllocError>
    ensures names { OnOk result ((u : List Value) (j : ℕ) → names out.new.items u j
        ≡ (names out.old.items u j
        || list_any (λ e. nat_eq e.place j && has_row (row.now ∷ []) u) entries.now)) }
    ensures all { OnOk result ((test : ℕ → Bool) → list_all (λ q. test q.place) out.new.items
        ≡ (list_all (λ q. test q.place) out.old.items && list_all (λ e. test e.place) entries.now)) }
    ensures breaks { OnOk result ((w : List Value) (s : ℕ) →
        breaks_before out.new.items w s ≡ breaks_before out.old.items w s) }
{
    for k in 0..entries.len() {
        out.push(row_taken(alloc, entries.get(k).place, row)?)?;
    }
    Ok(())
}

fn push_rows(
    alloc: Global,
    out: &mut Vec<Taken>,
    rows: &BTreeMap<Row, Entries>,
) -> Result<(), AllocError>
    ensures names { OnOk result ((u : List Value) (j : ℕ) → names out.new.items u j
        ≡ (names out.old.items u j || is_recalled rows.now.entries u j)) }
    ensures all { OnOk result ((test : ℕ → Bool) → list_all (λ q. test q.place) out.new.items
        ≡ (list_all (λ q. test q.place) out.old.items
        && list_all (λ r. list_all (λ e. test e.place) r.1) rows.now.entries)) }
    ensures breaks { OnOk result ((w : List Value) (s : ℕ) →
        breaks_before out.new.items w s ≡ breaks_before out.old.items w s) }
    ensures ascend { RowsAscend rows.now.entries }
{
    for (row, entries) in rows {
        push_entries(alloc, out, row, entries)?;
    }
    Ok(())
}

fn push_starts(
    alloc: Global,
    out: &mut Vec<Taken>,
    starts: &BTreeMap<Row, u64>,
) -> Result<(), AllocError>
    ensures names { OnOk result ((u : List Value) (j : ℕ) →
        names out.new.items u j ≡ names out.old.items u j) }
    ensures breaks { OnOk result ((w : List Value) (s : ℕ) → breaks_before out.new.items w s
        ≡ (breaks_before out.old.items w s || run_begins starts.now.entries w s)) }
    ensures all { OnOk result ((test : ℕ → Bool) → list_all (λ q. test q.place) out.new.items
        ≡ (list_all (λ q. test q.place) out.old.items && list_all (λ r. test (r.1 - 1)) starts.now.entries)) }
    ensures ascend { RowsAscend starts.now.entries }
{
    for (row, start) in starts {
        out.push(break_taken(alloc, start.saturating_sub(1), row)?)?;
    }
    Ok(())
}

fn in_order(list: Vec<Taken>) -> VecDeque<Taken>
    ensures names { (u : List Value) (j : ℕ) → names result.items u j ≡ names list.items u j }
    ensures breaks { (w : List Value) (s : ℕ) →
        breaks_before result.items w s ≡ breaks_before list.items w s }
    ensures all { (test : ℕ → Bool) →
        list_all (λ q. test q.place) result.items ≡ list_all (λ q. test q.place) list.items }
    ensures rising { Rising result.items }
{
    let mut list = list;
    list.sort_unstable_by_key(|taken| taken.place);
    VecDeque::from_vec(list)
}

// those of a negated operand break before their starts
fn push_breaks(
    alloc: Global,
    out: &mut Vec<Taken>,
    negated: bool,
    starts: &BTreeMap<Row, u64>,
) -> Result<(), AllocError>
    ensures names { OnOk result ((u : List Value) (j : ℕ) →
        names out.new.items u j ≡ names out.old.items u j) }
    ensures breaks { negated ≡ true → OnOk result ((w : List Value) (s : ℕ) → breaks_before out.new.items w s
        ≡ (breaks_before out.old.items w s || run_begins starts.now.entries w s)) }
    ensures all { OnOk result ((test : ℕ → Bool) → list_all (λ q. test q.place) out.new.items
        ≡ (list_all (λ q. test q.place) out.old.items
        && cond negated (list_all (λ r. test (r.1 - 1)) starts.now.entries) true)) }
    ensures ascend { negated ≡ true → OnOk result (RowsAscend starts.now.entries) }
{
    if negated {
        push_starts(alloc, out, starts)?;
    }
    Ok(())
}

/// The rows at the positions of their entries, and those of a negated operand before their starts, the
/// earliest first.
pub fn queue_of(
    alloc: Global,
    negated: bool,
    starts: &BTreeMap<Row, u64>,
    rows: &BTreeMap<Row, Entries>,
) -> Result<VecDeque<Taken>, AllocError>
    ensures names { IfOk result (λ queue. (u : List Value) (j : ℕ) →
        names queue.items u j ≡ is_recalled rows.now.entries u j) }
    ensures breaks { IfOk result (λ queue. negated ≡ true → (w : List Value) (s : ℕ) →
        breaks_before queue.items w s ≡ (breaks_before [] w s || run_begins starts.now.entries w s)) }
    ensures all { IfOk result (λ queue. (test : ℕ → Bool) → list_all (λ q. test q.place) queue.items
        ≡ (list_all (λ r. list_all (λ e. test e.place) r.1) rows.now.entries
        && cond negated (list_all (λ r. test (r.1 - 1)) starts.now.entries) true)) }
    ensures rising { IfOk result (λ queue. Rising queue.items) }
    ensures ascend { IfOk result (λ _. RowsAscend rows.now.entries) }
    ensures starts { IfOk result (λ _. negated ≡ true → RowsAscend starts.now.entries) }
{
    let mut list = Vec::new(alloc);
    push_rows(alloc, &mut list, rows)?;
    push_breaks(alloc, &mut list, negated, starts)?;
    Ok(in_order(list))
}
