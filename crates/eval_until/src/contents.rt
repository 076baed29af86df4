//! What is kept of the positions that were taken, and how one more is taken.
ghost use Rattle.std.specs.Prelude.{◌≡◌, ◌+◌, ◌∷◌, ◌++◌, ◌≤◌, ◌<◌, ◌^◌, [], ℕ, true, List};
ghost use Rattle.std.specs.Prelude.{IfOk, IsTrue, OnOk, cond, length};
ghost use Rattle.std.specs.List.Sorted.{IsStrictlySortedBy};
ghost use Rattle.mfotl_model.specs.Tables.{all_apart, has_row, part};
ghost use Rattle.mfotl_model.specs.Values.{row_cmp};
ghost use Rattle.mfotl_model.specs.declared.value.Value.{Value};
ghost use Rattle.relations.specs.KeptRows.{kept_for, list_for};
ghost use Rattle.relations.specs.Tables.{IsTable};
ghost use Rattle.until_rows.specs.ByKey.{Listed};
ghost use Rattle.until_rows.specs.InOrder.{in_order};
ghost use Rattle.eval_until.specs.Keeping.{Keeps, Queues, Sized, SizedStarts};
ghost use Rattle.eval_until.specs.Rules.{Ascending, StartsAbove, StartsBelow, Waiting};
ghost use Rattle.until_rows.specs.Rules.{NoneEmpty, all_before};
ghost use Rattle.until_rows.specs.Starts.{start_of, start_taken};

use crate::rebuild::queue_of;
use mfotl_model::Row;
use relations::Table;
use std::alloc::{AllocError, Global};
use std::collections::{BTreeMap, VecDeque};
use until_rows::{Entries, RowEntries, RunStarts};

/// The rows of the tables of one position: the right operand's, and those of a negated left one, whose
/// runs break there.
#[derive(Drop)]
pub struct Taken {
    pub place: u64,
    pub rights: Vec<Row>,
    pub breaks: Vec<Row>,
}

/// What is kept of the positions that were taken: where runs begin, the entries of rows, and by position the rows that
/// came with it, so that those of a pulled position are found.
#[derive(Drop)]
pub struct Contents {
    pub starts: RunStarts,
    pub rows: RowEntries,
    pub queue: VecDeque<Taken>,
}

impl Contents {
    /// Of no position, and by no columns.
    pub fn new(alloc: Global) -> Self
        ensures starts { result.starts ≡ [] }
        ensures rows { result.rows.entries ≡ [] }
        ensures queue { result.queue.items ≡ [] }
    {
        Contents {
            starts: RunStarts::new(alloc),
            rows: RowEntries::new(alloc),
            queue: VecDeque::new(alloc),
        }
    }

    /// With these starts and entries of positions that were taken before. Rows are found by these columns.
    pub fn recalled(
        alloc: Global,
        right: &[u32],
        keys: &[u32],
        negated: bool,
        starts: BTreeMap<Row, u64>,
        rows: BTreeMap<Row, Entries>,
    ) -> Result<Self, AllocError>
        requires apart { IsTrue (all_apart right.now) }
        requires sized { Sized (length right.now) rows.entries }
        requires some { NoneEmpty rows.entries }
        requires ascend { Ascending rows.entries }
        ensures starts { IfOk result (λ contents. in_order contents.starts ≡ starts.entries) }
        ensures rows { IfOk result (λ contents. in_order contents.rows.entries ≡ rows.entries) }
        ensures kept { IfOk result (λ contents. (pulled taken : ℕ) →
            Waiting pulled taken rows.entries → StartsBelow taken starts.entries →
            (negated ≡ true → StartsAbove pulled starts.entries) →
            Keeps negated right.now pulled taken contents.starts contents.rows.entries contents.queue.items) }
        ensures listed { IfOk result (λ contents. Listed right.now contents.rows.keyed contents.rows.entries) }
        ensures keys { IfOk result (λ contents. contents.rows.keyed.columns ≡ keys.now) }
    {
        let queue = queue_of(alloc, negated, &starts, &rows)?;
        let starts = RunStarts::from_ordered(alloc, starts)?;
        let found = RowEntries::from_ordered(alloc, right, keys, rows)?;
        Ok(Contents {
            starts,
            rows: found,
            queue,
        })
    }
}

// a table's rows, without room for more
fn rows_of(table: Table) -> Vec<Row>
    ensures rows { result.items ≡ table.rows }
    ensures is_table { IsTable table.columns table.rows }
{
    let mut rows = table.into_rows();
    rows.shrink_to_fit();
    rows
}

// the rows of the left operand's table that the queue needs: none where it is not negated
fn breaks_of(alloc: Global, negated: bool, lefts: Table) -> Vec<Row>
    ensures { negated ≡ true → result.items ≡ lefts.rows }
{
    if negated {
        rows_of(lefts)
    } else {
        Vec::new(alloc)
    }
}

// a position without rows isn't looked for when it is pulled
fn put_taken(queue: &mut VecDeque<Taken>, taken: Taken) -> Result<(), AllocError>
    ensures { OnOk result (Queues queue.old.items taken queue.new.items) }
{
    if taken.rights.is_empty() && taken.breaks.is_empty() {
        return Ok(());
    }
    queue.push_back(taken)?;
    Ok(())
}

// the rows of both tables, but for the queue
fn take_rows(
    alloc: Global,
    contents: &mut Contents,
    left: &[u32],
    right: &[u32],
    negated: bool,
    lefts: &[Row],
    rights: &[Row],
    place: u64,
    ts: u64,
) -> Result<(), AllocError>
    requires sorted { IsStrictlySortedBy row_cmp rights.now }
    requires before { (u : List Value) → IsTrue (all_before place (list_for contents.old.rows.entries u)) }
    requires some { NoneEmpty contents.old.rows.entries }
    requires listed { Listed right.now contents.old.rows.keyed contents.old.rows.entries }
    requires few { place < 2 ^ 63 }
    ensures rows { OnOk result ((u : List Value) → list_for contents.new.rows.entries u
        ≡ cond (has_row rights.now u) (list_for contents.old.rows.entries u ++ record {
          place = place;
          start = start_of negated place contents.old.starts (part right.now left.now u);
          ts = ts;
        } ∷ [])
        (list_for contents.old.rows.entries u)) }
    ensures some { OnOk result (NoneEmpty contents.new.rows.entries) }
    ensures starts { OnOk result ((w : List Value) → kept_for contents.new.starts w
        ≡ start_taken negated place lefts.now contents.old.starts w) }
    ensures listed { OnOk result (Listed right.now contents.new.rows.keyed contents.new.rows.entries) }
    ensures queue { contents.new.queue.items ≡ contents.old.queue.items }
{
    let Contents { starts, rows, .. } = contents;
    rows.add(alloc, starts, right, left, negated, rights, place, ts)?;
    starts.apply_left(alloc, negated, lefts, place)?;
    Ok(())
}

/// One position more: the right operand's rows, then the left operand's.
pub fn take_position(
    alloc: Global,
    contents: &mut Contents,
    left: &[u32],
    right: &[u32],
    negated: bool,
    lefts: Table,
    rights: Table,
    pulled: u64,
    place: u64,
    ts: u64,
) -> Result<(), AllocError>
    requires kept { Keeps negated right.now pulled place
        contents.old.starts contents.old.rows.entries contents.old.queue.items }
    requires listed { Listed right.now contents.old.rows.keyed contents.old.rows.entries }
    requires wide { SizedStarts (length left.now) contents.old.starts }
    requires lefts { lefts.columns ≡ left.now }
    requires rights { rights.columns ≡ right.now }
    requires low { pulled ≤ place }
    requires few { place < 2 ^ 63 }
    ensures rows { OnOk result ((u : List Value) → list_for contents.new.rows.entries u
        ≡ cond (has_row rights.rows u) (list_for contents.old.rows.entries u ++ record {
          place = place;
          start = start_of negated place contents.old.starts (part right.now left.now u);
          ts = ts;
        } ∷ [])
        (list_for contents.old.rows.entries u)) }
    ensures starts { OnOk result ((w : List Value) → kept_for contents.new.starts w
        ≡ start_taken negated place lefts.rows contents.old.starts w) }
    ensures kept { OnOk result (
        Keeps negated right.now pulled (place + 1)
        contents.new.starts contents.new.rows.entries contents.new.queue.items) }
    ensures wide { OnOk result (SizedStarts (length left.now) contents.new.starts) }
    ensures listed { OnOk result (Listed right.now contents.new.rows.keyed contents.new.rows.entries) }
{
    take_rows(
        alloc,
        contents,
        left,
        right,
        negated,
        lefts.rows(),
        rights.rows(),
        place,
        ts,
    )?;
    let rights = rows_of(rights);
    let breaks = breaks_of(alloc, negated, lefts);
    put_taken(
        &mut contents.queue,
        Taken {
            place,
            rights,
            breaks,
        },
    )?;
    Ok(())
}
