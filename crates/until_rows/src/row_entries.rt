//! The rows of the right operand with their entries, found by their hashes and by their values in some columns.
ghost use Rattle.std.specs.Prelude.{◌≡◌, ◌||◌, ◌&&◌, ◌∷◌, ◌++◌, [], false, true, List};
ghost use Rattle.std.specs.Prelude.{IfOk, IsTrue, None, OnErr, OnOk, cond, length, nat_eq};
ghost use Rattle.std.specs.List.{list_any};
ghost use Rattle.std.specs.List.Sorted.{IsStrictlySortedBy};
ghost use Rattle.std.specs.Ordering.{eq_by_cmp};
ghost use Rattle.mfotl_model.specs.Tables.{has_row, part};
ghost use Rattle.mfotl_model.specs.Values.{row_cmp};
ghost use Rattle.mfotl_model.specs.declared.value.Value.{Value};
ghost use Rattle.relations.specs.KeptRows.{RowsAscend, RowsDiffer, kept_for, last_for, list_for};
ghost use Rattle.until_rows.specs.ByKey.{Listed};
ghost use Rattle.until_rows.specs.Entries.{from_place, met_by};
ghost use Rattle.until_rows.specs.InOrder.{in_order};
ghost use Rattle.until_rows.specs.Rules.{NoneEmpty, all_before};
ghost use Rattle.until_rows.specs.Starts.{start_of};

use crate::by_key::{RowsByKey, list_rows, rows_by_key};
use crate::entries::{Entries, row_met};
use crate::entry_map::{add_rows, forget_rows, push_met};
use crate::ordered::{hashed_rows, ordered_rows};
use crate::run_starts::RunStarts;
use mfotl_model::{Interval, Row};
use std::alloc::{AllocError, Global};
use std::collections::{BTreeMap, HashMap};
use std::marker::Model;

/// The entries of rows, and the rows that have some listed by their values in some columns, the keys. Where a call is
/// told the columns of the rows, `right`, they are to be the same each time: the rows are listed by them.
#[derive(Drop)]
pub struct RowEntries {
    rows: HashMap<Row, Entries>,
    by_key: RowsByKey,
}

impl Model for RowEntries {
    ghost use Rattle.until_rows.specs.RowsView.{RowsOf};

    ghost Value = { RowsOf };

    ghost view = { λ k. record { entries = k.rows.entries; keyed = k.by_key } };
}

impl RowEntries {
    /// No rows, and no keys.
    pub fn new(alloc: Global) -> Self
        ensures { result ≡ record { entries = []; keyed = record { columns = []; sets = [] } } }
    {
        RowEntries {
            rows: HashMap::new(alloc),
            by_key: RowsByKey::new(alloc, Vec::new(alloc)),
        }
    }

    /// These entries, and the rows by their values in the columns of `keys`.
    pub fn from_ordered(
        alloc: Global,
        right: &[u32],
        keys: &[u32],
        rows: BTreeMap<Row, Entries>,
    ) -> Result<Self, AllocError>
        ensures found { IfOk result (λ kept. (u : List Value) →
            kept_for kept.entries u ≡ last_for rows.entries u None) }
        ensures ascend { IfOk result (λ _. RowsAscend rows.entries) }
        ensures listed { IfOk result (λ kept. Listed right.now kept.keyed kept.entries) }
        ensures keys { IfOk result (λ kept. kept.keyed.columns ≡ keys.now) }
        ensures same { IfOk result (λ kept. in_order kept.entries ≡ rows.entries) }
    {
        let rows = hashed_rows(alloc, rows)?;
        let by_key = rows_by_key(alloc, right, keys, &rows)?;
        Ok(RowEntries { rows, by_key })
    }

    /// Copies of the entries, by ascending rows.
    pub fn in_order(&self, alloc: Global) -> Result<BTreeMap<Row, Entries>, AllocError>
        ensures found { IfOk result (λ map. (u : List Value) →
            kept_for map.entries u ≡ last_for self.now.entries u None) }
        ensures ascend { IfOk result (λ map. RowsAscend map.entries) }
        ensures differ { IfOk result (λ _. RowsDiffer self.now.entries) }
        ensures same { IfOk result (λ map. map.entries ≡ in_order self.now.entries) }
    {
        let map = ordered_rows(alloc, &self.rows)?;
        Ok(map)
    }

    /// Finds rows by their values in these columns at once from now on.
    pub fn find_by(&mut self, alloc: Global, right: &[u32], keys: &[u32]) -> Result<(), AllocError>
        ensures entries { self.new.entries ≡ self.old.entries }
        ensures listed { OnOk result (Listed right.now self.new.keyed self.new.entries) }
        ensures keys { OnOk result (self.new.keyed.columns ≡ keys.now) }
        ensures old { OnErr result (self.new ≡ self.old) }
    {
        self.by_key = rows_by_key(alloc, right, keys, &self.rows)?;
        Ok(())
    }

    /// The columns of the keys.
    pub fn keys(&self) -> &[u32]
        ensures { result.now ≡ self.now.keyed.columns }
    {
        self.by_key.columns()
    }

    /// Whether rows are found at once by their values in these columns.
    pub fn finds_by(&self, columns: &[u32]) -> bool
        ensures some { IsTrue result → nat_eq (length self.now.keyed.columns) 0 ≡ false }
        ensures same { IsTrue result → columns.now ≡ self.now.keyed.columns }
        ensures yes { nat_eq (length self.now.keyed.columns) 0 ≡ false →
            columns.now ≡ self.now.keyed.columns → result ≡ true }
    {
        self.by_key.finds_by(columns)
    }

    /// Adds the rows of the right operand's table at the position `place`, which none of the entries
    /// reaches yet. Each run begins where `starts` tells of the row's part at the columns `left`.
    pub fn add(
        &mut self,
        alloc: Global,
        starts: &RunStarts,
        right: &[u32],
        left: &[u32],
        negated: bool,
        table: &[Row],
        place: u64,
        ts: u64,
    ) -> Result<(), AllocError>
        requires sorted { IsStrictlySortedBy row_cmp table.now }
        requires before { (u : List Value) → IsTrue (all_before place (list_for self.old.entries u)) }
        requires some { NoneEmpty self.old.entries }
        requires listed { Listed right.now self.old.keyed self.old.entries }
        ensures entries { OnOk result ((u : List Value) → list_for self.new.entries u
            ≡ cond (has_row table.now u) (list_for self.old.entries u ++ record {
              place = place;
              start = start_of negated place starts.now (part right.now left.now u);
              ts = ts;
            } ∷ [])
            (list_for self.old.entries u)) }
        ensures some { OnOk result (NoneEmpty self.new.entries) }
        ensures listed { OnOk result (Listed right.now self.new.keyed self.new.entries) }
        ensures keys { self.new.keyed.columns ≡ self.old.keyed.columns }
    {
        list_rows(alloc, &mut self.by_key, &self.rows, right, table)?;
        add_rows(
            alloc,
            &mut self.rows,
            starts,
            right,
            left,
            negated,
            table,
            place,
            ts,
        )?;
        Ok(())
    }

    /// Forgets what stands before the position `next`, of these rows, and those of which nothing is left.
    pub fn forget(&mut self, alloc: Global, right: &[u32], table: Vec<Row>, next: u64)
        ensures entries { (u : List Value) → list_for self.new.entries u
            ≡ cond (has_row table.items u) (from_place next (list_for self.old.entries u))
            (list_for self.old.entries u) }
        ensures some { NoneEmpty self.old.entries → NoneEmpty self.new.entries }
        ensures listed { Listed right.now self.old.keyed self.old.entries →
            Listed right.now self.new.keyed self.new.entries }
        ensures keys { self.new.keyed.columns ≡ self.old.keyed.columns }
    {
        forget_rows(alloc, &mut self.rows, &mut self.by_key, right, table, next);
    }

    /// Whether some entry of a row meets UNTIL at the position `i`, whose time is `x`.
    pub fn row_met(&self, row: &Row, interval: &Interval, i: u64, x: u64) -> bool
        ensures { result ≡ met_by interval.now i x (list_for self.now.entries row.now) }
    {
        row_met(&self.rows, row, interval, i, x)
    }

    /// Appends the rows of which some entry meets UNTIL at the position `i`, whose time is `x`.
    pub fn push_met(
        &self,
        alloc: Global,
        out: &mut Vec<Row>,
        interval: &Interval,
        i: u64,
        x: u64,
    ) -> Result<(), AllocError>
        ensures rows { OnOk result ((u : List Value) → has_row out.new.items u
            ≡ (has_row out.old.items u
            || list_any (λ e. eq_by_cmp row_cmp u e.0 && met_by interval.now i x e.1) self.now.entries)) }
        ensures differ { RowsDiffer self.now.entries }
    {
        push_met(alloc, &self.rows, out, interval, i, x)
    }

    /// Appends the rows that are listed by these keys and of which some entry meets UNTIL at the position `i`,
    /// whose time is `x`.
    pub fn push_found(
        &self,
        alloc: Global,
        out: &mut Vec<Row>,
        keys: &[Row],
        interval: &Interval,
        i: u64,
        x: u64,
    ) -> Result<(), AllocError>
        ensures { OnOk result ((u : List Value) → has_row out.new.items u ≡ (has_row out.old.items u
            || list_any (λ k. has_row (list_for self.now.keyed.sets k) u
            && met_by interval.now i x (list_for self.now.entries u)) keys.now)) }
    {
        self.by_key
            .push_found(alloc, &self.rows, out, keys, interval, i, x)
    }
}
