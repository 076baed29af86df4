//! What UNTIL has seen from the next position on.
ghost use Rattle.std.specs.Prelude.{◌≡◌, ◌||◌, ◌&&◌, ◌+◌, ◌-◌, ◌∷◌, ◌++◌, ◌≤◌, ◌<◌, ◌^◌, [], ℕ, Bool, true, List};
ghost use Rattle.std.specs.Prelude.{IfOk, IsTrue, OnErr, OnOk, cond, if◌then◌else◌, is_ok, length, nat_le};
ghost use Rattle.std.specs.List.{AllByRecursion};
ghost use Rattle.std.specs.List.Sorted.{IsStrictlySortedBy};
ghost use Rattle.relations.specs.KeptRows.{RowsAscend};
ghost use Rattle.until_rows.specs.Recalled.{entries_kept, starts_kept};
ghost use Rattle.mfotl_model.specs.Intervals.{in_interval};
ghost use Rattle.mfotl_model.specs.Tables.{all_apart, has_row, part};
ghost use Rattle.mfotl_model.specs.Values.{row_cmp};
ghost use Rattle.mfotl_model.specs.declared.value.Value.{Value};
ghost use Rattle.relations.specs.Pushed.{turned};
ghost use Rattle.eval_until.specs.AheadView.{AheadOf, met, run_start};
ghost use Rattle.until_rows.specs.ByKey.{Listed};
ghost use Rattle.until_rows.specs.InOrder.{in_order};
ghost use Rattle.eval_until.specs.Keeping.{Keeps, Sized, SizedStarts};
ghost use Rattle.eval_until.specs.Rules.{Ascending, EachPasses, StartsAbove, StartsBelow, Timed, Waiting};
ghost use Rattle.until_rows.specs.Rules.{NoneEmpty};

use crate::contents::{Contents, take_position};
use crate::expiry::expire;
use mfotl_model::{Interval, Row};
use relations::{Columns, Table};
use std::alloc::{AllocError, Global};
use std::collections::VecDeque;
use std::marker::Model;
use until_rows::{KeptMarks, KeptStart, kept_marks, kept_starts, rows_map, starts_map};

/// What UNTIL has seen from the next position on.
#[derive(Drop)]
pub struct Ahead {
    interval: Interval,
    left: Vec<u32>,
    right: Vec<u32>,
    negated: bool,
    pulled: u64,
    taken: u64,
    contents: Contents,
}

impl Model for Ahead {
    ghost use Rattle.std.specs.Prelude.{length};
    ghost use Rattle.eval_until.specs.AheadView.{AheadOf};
    ghost use Rattle.until_rows.specs.ByKey.{Listed};
    ghost use Rattle.until_rows.specs.InOrder.{in_order};
    ghost use Rattle.eval_until.specs.Keeping.{Keeps, SizedStarts};

    ghost Value = { AheadOf };

    ghost view = { λ k. record {
      interval = k.interval;
      left = k.left.items;
      right = k.right.items;
      negated = k.negated;
      pulled = k.pulled;
      taken = k.taken;
      starts = in_order k.contents.starts;
      rows = in_order k.contents.rows.entries;
    } };

    ghost invariant = { λ k. record {
      keeps : Keeps k.negated k.right.items k.pulled k.taken k.contents.starts k.contents.rows.entries
          k.contents.queue.items;
      wide : SizedStarts (length k.left.items) k.contents.starts;
      listed : Listed k.right.items k.contents.rows.keyed k.contents.rows.entries;
    } };
}

impl Ahead {
    /// Before the first position.
    pub fn new(
        alloc: Global,
        interval: Interval,
        left: Vec<u32>,
        right: Vec<u32>,
        negated: bool,
    ) -> Self
        requires apart { IsTrue (all_apart right.items) }
        ensures { result ≡ record {
          interval = interval;
          left = left.items;
          right = right.items;
          negated = negated;
          pulled = 0;
          taken = 0;
          starts = [];
          rows = [];
        } }
    {
        Ahead {
            interval,
            left,
            right,
            negated,
            pulled: 0,
            taken: 0,
            contents: Contents::new(alloc),
        }
    }

    /// Puts these starts and marks, after so many positions, in place of what is kept; `times` are those of the
    /// positions from the next one to pull on.
    pub fn recall(
        &mut self,
        alloc: Global,
        pulled: u64,
        taken: u64,
        times: &[u64],
        starts: Vec<KeptStart>,
        rows: Vec<KeptMarks>,
    ) -> Result<(), AllocError>
        requires high { taken ≤ pulled + length times.now }
        requires starts { RowsAscend (starts_kept starts.items) }
        requires wide { AllByRecursion (λ r. length r.0 ≡ length self.old.left) (starts_kept starts.items) }
        requires rows { RowsAscend (entries_kept pulled times.now rows.items) }
        requires sized { Sized (length self.old.right) (entries_kept pulled times.now rows.items) }
        requires some { AllByRecursion (λ r. 0 < length r.1) (entries_kept pulled times.now rows.items) }
        requires waiting { Waiting pulled taken (entries_kept pulled times.now rows.items) }
        requires ascend { Ascending (entries_kept pulled times.now rows.items) }
        requires below { StartsBelow taken (starts_kept starts.items) }
        requires above { self.old.negated ≡ true → StartsAbove pulled (starts_kept starts.items) }
        ensures recalled { OnOk result (self.new ≡ record self.old {
          pulled = pulled;
          taken = taken;
          starts = starts_kept starts.items;
          rows = entries_kept pulled times.now rows.items;
        }) }
        ensures old { OnErr result (self.new ≡ self.old) }
    {
        let starts = starts_map(alloc, starts)?;
        let rows = rows_map(alloc, rows, pulled, times)?;
        let right = self.right.as_slice();
        let keys = self.contents.rows.keys();
        let contents = Contents::recalled(alloc, right, keys, self.negated, starts, rows)?;
        self.go_on(contents, pulled, taken);
        Ok(())
    }

    fn go_on(&mut self, contents: Contents, pulled: u64, taken: u64)
        requires kept { Keeps self.old.negated self.old.right pulled taken contents.starts contents.rows.entries
            contents.queue.items }
        requires wide { SizedStarts (length self.old.left) contents.starts }
        requires listed { Listed self.old.right contents.rows.keyed contents.rows.entries }
        ensures { self.new ≡ record self.old {
          pulled = pulled;
          taken = taken;
          starts = in_order contents.starts;
          rows = in_order contents.rows.entries;
        } }
    {
        self.contents = contents;
        self.pulled = pulled;
        self.taken = taken;
    }

    /// Finds rows by their values in these columns at once from now on.
    pub fn find_by(&mut self, alloc: Global, keys: &[u32]) -> Result<(), AllocError>
        ensures { self.new ≡ self.old }
    {
        let right = self.right.as_slice();
        self.contents.rows.find_by(alloc, right, keys)?;
        Ok(())
    }

    /// The rows with their starts, in order.
    pub fn kept_starts(&self, alloc: Global) -> Result<Vec<KeptStart>, AllocError>
        ensures starts { IfOk result (λ kept. starts_kept kept.items ≡ self.now.starts) }
        ensures wide { IfOk result (λ _.
            AllByRecursion (λ r. length r.0 ≡ length self.now.left) self.now.starts) }
        ensures ascend { IfOk result (λ _. RowsAscend self.now.starts) }
    {
        let starts = self.contents.starts.in_order(alloc)?;
        let kept = kept_starts(alloc, &starts)?;
        Ok(kept)
    }

    /// The rows with their marks, in order, where `times` are those of the positions from the next one
    /// to pull on.
    pub fn kept_marks(
        &self,
        alloc: Global,
        times: &VecDeque<u64>,
    ) -> Result<Vec<KeptMarks>, AllocError>
        requires { Timed self.now.pulled times.now.items self.now.rows }
        ensures rows { IfOk result (λ kept.
            entries_kept self.now.pulled times.now.items kept.items ≡ self.now.rows) }
        ensures some { IfOk result (λ _. AllByRecursion (λ r. 0 < length r.1) self.now.rows) }
        ensures ascend { IfOk result (λ _. RowsAscend self.now.rows) }
        ensures sized { Sized (length self.now.right) self.now.rows }
        ensures waiting { Waiting self.now.pulled self.now.taken self.now.rows }
        ensures places { Ascending self.now.rows }
        ensures below { StartsBelow self.now.taken self.now.starts }
        ensures above { self.now.negated ≡ true → StartsAbove self.now.pulled self.now.starts }
    {
        self.is_bounded();
        self.is_sized();
        let rows = self.contents.rows.in_order(alloc)?;
        let kept = kept_marks(alloc, &rows, self.pulled, times)?;
        Ok(kept)
    }

    /// Takes one position more. Without memory nothing is kept.
    pub fn take(
        &mut self,
        alloc: Global,
        lefts: Table,
        rights: Table,
        ts: u64,
    ) -> Result<(), AllocError>
        requires low { self.old.pulled ≤ self.old.taken }
        requires few { self.old.taken < 2 ^ 63 }
        requires lefts { lefts.columns ≡ self.old.left }
        requires rights { rights.columns ≡ self.old.right }
        ensures met { OnOk result ((i x : ℕ) (u : List Value) → met self.new i x u
            ≡ (met self.old i x u || (has_row rights.rows u
            && (nat_le (run_start self.old (part self.old.right self.old.left u)) i
            && nat_le i self.old.taken && in_interval self.old.interval (ts - x))))) }
        ensures start { OnOk result ((w : List Value) → run_start self.new w
            ≡ cond (turned self.old.negated (has_row lefts.rows w)) (run_start self.old w)
            (self.old.taken + 1)) }
        ensures times { (test : ℕ → ℕ → Bool) → EachPasses test self.old.rows →
            IsTrue (test self.old.taken ts) → EachPasses test self.new.rows }
        ensures taken { self.new.taken ≡ (if is_ok result then self.old.taken + 1 else self.old.taken) }
        ensures pulled { self.new.pulled ≡ self.old.pulled }
        ensures interval { self.new.interval ≡ self.old.interval }
        ensures left { self.new.left ≡ self.old.left }
        ensures right { self.new.right ≡ self.old.right }
        ensures negated { self.new.negated ≡ self.old.negated }
    {
        let taken = take_position(
            alloc,
            &mut self.contents,
            self.left.as_slice(),
            self.right.as_slice(),
            self.negated,
            lefts,
            rights,
            self.pulled,
            self.taken,
            ts,
        );
        match taken {
            Ok(()) => {
                self.taken += 1;
                Ok(())
            }
            Err(error) => {
                self.contents = Contents::new(alloc);
                Err(error)
            }
        }
    }

    /// Goes on to the next position, and forgets what stands before it.
    pub fn advance(&mut self, alloc: Global)
        requires { self.old.pulled < 2 ^ 63 }
        ensures met { (i x : ℕ) (u : List Value) → self.old.pulled + 1 ≤ i →
            met self.new i x u ≡ met self.old i x u }
        ensures start { (i : ℕ) (w : List Value) → self.old.pulled + 1 ≤ i →
            nat_le (run_start self.new w) i ≡ nat_le (run_start self.old w) i }
        ensures waiting { Waiting (self.old.pulled + 1) self.old.taken self.new.rows }
        ensures times { (test : ℕ → ℕ → Bool) →
            EachPasses test self.old.rows → EachPasses test self.new.rows }
        ensures pulled { self.new.pulled ≡ self.old.pulled + 1 }
        ensures taken { self.new.taken ≡ self.old.taken }
        ensures interval { self.new.interval ≡ self.old.interval }
        ensures left { self.new.left ≡ self.old.left }
        ensures right { self.new.right ≡ self.old.right }
        ensures negated { self.new.negated ≡ self.old.negated }
    {
        let next = self.pulled + 1;
        let right = self.right.as_slice();
        let Contents {
            starts,
            rows,
            queue,
        } = &mut self.contents;
        expire(alloc, right, rows, starts, queue, self.negated, next);
        self.pulled = next;
    }

    /// Whether some entry of a row meets UNTIL at the position `i`, whose time is `x`.
    pub fn met(&self, row: &Row, i: u64, x: u64) -> bool
        ensures { result ≡ met self.now i x row.now }
    {
        self.contents.rows.row_met(row, &self.interval, i, x)
    }

    /// The rows of which some entry meets UNTIL at the position `i`, whose time is `x`.
    pub fn table(&self, alloc: Global, i: u64, x: u64) -> Result<Table, AllocError>
        ensures columns { IfOk result (λ table. table.columns ≡ self.now.right) }
        ensures rows { IfOk result (λ table. (u : List Value) →
            has_row table.rows u ≡ met self.now i x u) }
    {
        let mut rows = Vec::new(alloc);
        self.contents
            .rows
            .push_met(alloc, &mut rows, &self.interval, i, x)?;
        let columns = Columns::from_slice(alloc, self.right.as_slice())?;
        Ok(Table::from_rows(columns, rows))
    }

    /// Of the rows that `table` tells at least those whose part at the columns of `keys` is one of the rows of `keys`.
    pub fn table_of(&self, alloc: Global, i: u64, x: u64, keys: &Table) -> Result<Table, AllocError>
        ensures columns { IfOk result (λ table. table.columns ≡ self.now.right) }
        ensures rows { IfOk result (λ table. (u : List Value) →
            IsTrue (has_row keys.now.rows (part self.now.right keys.now.columns u)) →
            has_row table.rows u ≡ met self.now i x u) }
    {
        let kept = &self.contents.rows;
        if !kept.finds_by(keys.columns()) {
            return self.table(alloc, i, x);
        }
        let mut found = Vec::new(alloc);
        kept.push_found(alloc, &mut found, keys.rows(), &self.interval, i, x)?;
        let columns = Columns::from_slice(alloc, self.right.as_slice())?;
        Ok(Table::from_rows(columns, found))
    }

    /// Of how many positions the tables were taken.
    pub fn taken(&self) -> u64
        ensures { result ≡ self.now.taken }
    {
        self.taken
    }

    /// How many positions were pulled.
    pub fn pulled(&self) -> u64
        ensures { result ≡ self.now.pulled }
    {
        self.pulled
    }

    /// The interval of distances.
    pub fn interval(&self) -> &Interval
        ensures { result.now ≡ self.now.interval }
    {
        &self.interval
    }

    /// The left operand's columns.
    pub fn left(&self) -> &[u32]
        ensures { result.now ≡ self.now.left }
    {
        self.left.as_slice()
    }

    /// The right operand's columns.
    pub fn right(&self) -> &[u32]
        ensures right { result.now ≡ self.now.right }
        ensures apart { IsTrue (all_apart self.now.right) }
    {
        self.right.as_slice()
    }

    // Does nothing: the clause says that each row with entries has a value for each of the right operand's columns.
    fn is_sized(&self)
        ensures { Sized (length self.now.right) self.now.rows }
    {
        // one field is read, so that what always holds of all of them is known
        let _ = &self.taken;
    }

    /// Does nothing: the clauses say what is kept of positions, and no more.
    pub fn is_bounded(&self)
        ensures some { NoneEmpty self.now.rows }
        ensures waiting { Waiting self.now.pulled self.now.taken self.now.rows }
        ensures ascend { Ascending self.now.rows }
        ensures below { StartsBelow self.now.taken self.now.starts }
        ensures above { self.now.negated ≡ true → StartsAbove self.now.pulled self.now.starts }
    {
        // one field is read, so that what always holds of all of them is known
        let _ = &self.taken;
    }
}
