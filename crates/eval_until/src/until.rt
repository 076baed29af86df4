//! UNTIL over tables that are pushed position by position.
ghost use Rattle.std.specs.Prelude.{◌≡◌, ◌↔◌, ◌+◌, ◌-◌, ◌<◌, ◌≤◌, ◌^◌, [], ℕ, Bool, true, List};
ghost use Rattle.std.specs.Prelude.{IfOk, IsTrue, OnOk, length, nat_lt, not};
ghost use Rattle.mfotl_model.specs.Satisfaction.{Valuation};
ghost use Rattle.mfotl_model.specs.Tables.{all_among, all_apart, has};
ghost use Rattle.mfotl_model.specs.declared.value.Value.{Value};
ghost use Rattle.relations.specs.KeptRows.{kept_for};
ghost use Rattle.until_rows.specs.Recalled.{entries_kept, starts_kept};
ghost use Rattle.eval_until.specs.UntilData.{UntilRule, setting_of, until_of};
ghost use Rattle.eval_until.specs.Rules.{Ascending, StartsAbove, StartsBelow, Waiting};
ghost use Rattle.until_rows.specs.Rules.{NoneEmpty};
ghost use Rattle.eval_until.specs.UntilView.{Follows, FollowsLeft, UntilOf};

use crate::ahead::Ahead;
use crate::recalled::UntilData;
use mfotl_model::Interval;
use relations::{Table, copied_tables};
use std::alloc::{AllocError, Global};
use std::collections::VecDeque;
use std::marker::Model;

/// The state of UNTIL: what was seen from the next position on, and what was pushed for positions that
/// weren't taken yet. The n-th table pushed on a side, and the n-th time, are those of position n. A
/// position is taken where its time and both tables were pushed; it is pulled where it is settled.
#[derive(Drop)]
pub struct UntilState {
    pub(crate) ahead: Ahead,
    pub(crate) times: VecDeque<u64>,
    pub(crate) lefts: VecDeque<Table>,
    pub(crate) rights: VecDeque<Table>,
}

impl Model for UntilState {
    ghost use Rattle.std.specs.Prelude.{◌≡◌, ◌≤◌, ◌+◌, ◌^◌, length, true};
    ghost use Rattle.mfotl_model.specs.Tables.{all_among};
    ghost use Rattle.relations.specs.Pushed.{AreOver};
    ghost use Rattle.eval_until.specs.Rules.{Timed};
    ghost use Rattle.eval_until.specs.UntilView.{UntilOf};

    ghost Value = { UntilOf };

    ghost view = { λ s. record {
      ahead = s.ahead;
      times = s.times.items;
      lefts = s.lefts.items;
      rights = s.rights.items;
    } };

    ghost invariant = { λ s. record {
      low : s.ahead.pulled ≤ s.ahead.taken;
      high : s.ahead.taken ≤ s.ahead.pulled + length s.times.items;
      few : s.ahead.pulled + length s.times.items ≤ 2 ^ 63;
      inside : all_among s.ahead.left s.ahead.right ≡ true;
      left : AreOver s.ahead.left s.lefts.items;
      right : AreOver s.ahead.right s.rights.items;
      timed : Timed s.ahead.pulled s.times.items s.ahead.rows;
    } };
}

impl UntilState {
    /// The state before the first position, for operands over these columns.
    pub fn new(
        alloc: Global,
        interval: &Interval,
        left: &[u32],
        right: &[u32],
        negated: bool,
    ) -> Result<Self, AllocError>
        requires apart { IsTrue (all_apart right.now) }
        requires inside { IsTrue (all_among left.now right.now) }
        ensures state { IfOk result (λ state. state ≡ record {
          ahead = record {
            interval = interval.now;
            left = left.now;
            right = right.now;
            negated = negated;
            pulled = 0;
            taken = 0;
            starts = [];
            rows = [];
          };
          times = [];
          lefts = [];
          rights = [];
        }) }
        ensures left { IfOk result (λ state.
            (a : List Bool) (v : Valuation) → FollowsLeft state a v) }
        ensures follows { IfOk result (λ state.
            (t : List ℕ) (a b : List Bool) (v : Valuation) → Follows state t a b v) }
    {
        let left = Vec::from_slice(alloc, left)?;
        let right = Vec::from_slice(alloc, right)?;
        Ok(UntilState {
            ahead: Ahead::new(alloc, *interval, left, right, negated),
            times: VecDeque::new(alloc),
            lefts: VecDeque::new(alloc),
            rights: VecDeque::new(alloc),
        })
    }

    /// The same, which finds rows by their values in the columns of `keys` at once.
    pub fn keyed(
        alloc: Global,
        interval: &Interval,
        left: &[u32],
        right: &[u32],
        negated: bool,
        keys: &[u32],
    ) -> Result<Self, AllocError>
        requires apart { IsTrue (all_apart right.now) }
        requires inside { IsTrue (all_among left.now right.now) }
        ensures state { IfOk result (λ state. state ≡ record {
          ahead = record {
            interval = interval.now;
            left = left.now;
            right = right.now;
            negated = negated;
            pulled = 0;
            taken = 0;
            starts = [];
            rows = [];
          };
          times = [];
          lefts = [];
          rights = [];
        }) }
        ensures left { IfOk result (λ state.
            (a : List Bool) (v : Valuation) → FollowsLeft state a v) }
        ensures follows { IfOk result (λ state.
            (t : List ℕ) (a b : List Bool) (v : Valuation) → Follows state t a b v) }
    {
        let mut state = UntilState::new(alloc, interval, left, right, negated)?;
        state.ahead.find_by(alloc, keys)?;
        Ok(state)
    }

    /// Whether the table is over the left operand's columns, as `push_left` asks.
    pub fn takes_left(&self, table: &Table) -> bool
        ensures { IsTrue result ↔ (table.now.columns ≡ self.now.ahead.left) }
    {
        table.columns() == self.ahead.left()
    }

    /// Whether the table is over the right operand's columns, as `push_right` asks.
    pub fn takes_right(&self, table: &Table) -> bool
        ensures { IsTrue result ↔ (table.now.columns ≡ self.now.ahead.right) }
    {
        table.columns() == self.ahead.right()
    }

    /// Whether there are few enough times, as `push_time` asks.
    pub fn takes_time(&self) -> bool
        ensures { result ≡ nat_lt (self.now.ahead.pulled + length self.now.times) (2 ^ 63) }
    {
        self.ahead.pulled() + (self.times.len() as u64) < 1 << 63
    }

    /// The state of which `kept` is the data, where `times` are those from the next position on.
    pub fn resume(
        alloc: Global,
        interval: &Interval,
        left: &[u32],
        right: &[u32],
        negated: bool,
        times: &[u64],
        kept: UntilData,
    ) -> Result<Self, AllocError>
        requires apart { IsTrue (all_apart right.now) }
        requires inside { IsTrue (all_among left.now right.now) }
        requires rule { UntilRule (until_of (record {
          interval = interval.now;
          left = left.now;
          right = right.now;
          negated = negated;
        }) times.now kept) }
        ensures state { IfOk result (λ state. state ≡ until_of (record {
          interval = interval.now;
          left = left.now;
          right = right.now;
          negated = negated;
        }) times.now kept) }
        ensures setting { IfOk result (λ state. setting_of state ≡ record {
          interval = interval.now;
          left = left.now;
          right = right.now;
          negated = negated;
        }) }
        ensures pulled { IfOk result (λ state. state.ahead.pulled ≡ kept.pulled) }
        ensures taken { IfOk result (λ state. state.ahead.taken ≡ kept.taken) }
        ensures times { IfOk result (λ state. state.times ≡ times.now) }
        ensures lefts { IfOk result (λ state. state.lefts ≡ kept.lefts.items) }
        ensures rights { IfOk result (λ state. state.rights ≡ kept.rights.items) }
        ensures starts { IfOk result (λ state. (w : List Value) →
            kept_for state.ahead.starts w ≡ kept_for (starts_kept kept.starts.items) w) }
        ensures rows { IfOk result (λ state. (u : List Value) → kept_for state.ahead.rows u
            ≡ kept_for (entries_kept kept.pulled times.now kept.rows.items) u) }
        ensures left { IfOk result (λ state. (a : List Bool) (v : Valuation) →
            FollowsLeft (until_of (record {
              interval = interval.now;
              left = left.now;
              right = right.now;
              negated = negated;
            }) times.now kept) a v →
            FollowsLeft state a v) }
        ensures follows { IfOk result (λ state.
            (t : List ℕ) (a b : List Bool) (v : Valuation) →
            Follows (until_of (record {
              interval = interval.now;
              left = left.now;
              right = right.now;
              negated = negated;
            }) times.now kept) t a b v →
            Follows state t a b v) }
    {
        let state = UntilState::new(alloc, interval, left, right, negated)?;
        let state = state.recalled(alloc, times, kept)?;
        Ok(state)
    }

    /// The state of the same operands, interval and keys of which `kept` is the data, where `times` are those
    /// from the next position on.
    pub fn resumed(self, alloc: Global, times: &[u64], kept: UntilData) -> Result<Self, AllocError>
        requires rule { UntilRule (until_of (setting_of self) times.now kept) }
        ensures state { IfOk result (λ state. state ≡ until_of (setting_of self) times.now kept) }
        ensures setting { IfOk result (λ state. setting_of state ≡ setting_of self) }
        ensures pulled { IfOk result (λ state. state.ahead.pulled ≡ kept.pulled) }
        ensures taken { IfOk result (λ state. state.ahead.taken ≡ kept.taken) }
        ensures times { IfOk result (λ state. state.times ≡ times.now) }
        ensures lefts { IfOk result (λ state. state.lefts ≡ kept.lefts.items) }
        ensures rights { IfOk result (λ state. state.rights ≡ kept.rights.items) }
        ensures starts { IfOk result (λ state. (w : List Value) →
            kept_for state.ahead.starts w ≡ kept_for (starts_kept kept.starts.items) w) }
        ensures rows { IfOk result (λ state. (u : List Value) → kept_for state.ahead.rows u
            ≡ kept_for (entries_kept kept.pulled times.now kept.rows.items) u) }
        ensures left { IfOk result (λ state. (a : List Bool) (v : Valuation) →
            FollowsLeft (until_of (setting_of self) times.now kept) a v → FollowsLeft state a v) }
        ensures follows { IfOk result (λ state.
            (t : List ℕ) (a b : List Bool) (v : Valuation) →
            Follows (until_of (setting_of self) times.now kept) t a b v → Follows state t a b v) }
    {
        let state = self.recalled(alloc, times, kept)?;
        Ok(state)
    }

    fn recalled(mut self, alloc: Global, times: &[u64], kept: UntilData) -> Result<Self, AllocError>
        requires { UntilRule (until_of (setting_of self) times.now kept) }
        ensures { IfOk result (λ state. state ≡ until_of (setting_of self) times.now kept) }
    {
        self.recall(alloc, times, kept)?;
        Ok(self)
    }

    // puts the data in place of what the state has
    fn recall(&mut self, alloc: Global, times: &[u64], kept: UntilData) -> Result<(), AllocError>
        requires { UntilRule (until_of (setting_of self.old) times.now kept) }
        ensures { OnOk result (self.new ≡ until_of (setting_of self.old) times.now kept) }
    {
        let next = Vec::from_slice(alloc, times)?;
        let UntilData {
            pulled,
            taken,
            lefts,
            rights,
            starts,
            rows,
        } = kept;
        self.ahead
            .recall(alloc, pulled, taken, times, starts, rows)?;
        self.times = VecDeque::from_vec(next);
        self.lefts = VecDeque::from_vec(lefts);
        self.rights = VecDeque::from_vec(rights);
        Ok(())
    }

    /// The left operand's columns, those of the rows that starts are kept for.
    pub fn left_columns(&self) -> &[u32]
        ensures { result.now ≡ self.now.ahead.left }
    {
        self.ahead.left()
    }

    /// The right operand's columns, those of the rows that marks are kept for.
    pub fn right_columns(&self) -> &[u32]
        ensures { result.now ≡ self.now.ahead.right }
    {
        self.ahead.right()
    }

    /// The times of the positions from the next one on.
    pub fn times(&self) -> &VecDeque<u64>
        ensures { result.now.items ≡ self.now.times }
    {
        &self.times
    }

    /// What the state keeps, as plain data.
    pub fn state(&self, alloc: Global) -> Result<UntilData, AllocError>
        ensures same { IfOk result (λ kept.
            until_of (setting_of self.now) self.now.times kept ≡ self.now) }
        ensures rule { IfOk result (λ kept.
            UntilRule (until_of (setting_of self.now) self.now.times kept)) }
    {
        Ok(UntilData {
            pulled: self.ahead.pulled(),
            taken: self.ahead.taken(),
            lefts: copied_tables(alloc, &self.lefts)?,
            rights: copied_tables(alloc, &self.rights)?,
            starts: self.ahead.kept_starts(alloc)?,
            rows: self.ahead.kept_marks(alloc, &self.times)?,
        })
    }

    /// Does nothing: the clauses say of what is kept that each row has an entry; that each entry stands at a
    /// position that was taken and not pulled, those of a row by strictly ascending positions, and that no run
    /// begins behind the entry that names it; that no start is behind the positions taken, and one of a negated
    /// operand is behind the next position to pull.
    pub fn keeps_no_more(&self)
        ensures low { self.now.ahead.pulled ≤ self.now.ahead.taken }
        ensures high { self.now.ahead.taken ≤ self.now.ahead.pulled + length self.now.times }
        ensures some { NoneEmpty self.now.ahead.rows }
        ensures waiting { Waiting self.now.ahead.pulled self.now.ahead.taken self.now.ahead.rows }
        ensures ascend { Ascending self.now.ahead.rows }
        ensures below { StartsBelow self.now.ahead.taken self.now.ahead.starts }
        ensures above { self.now.ahead.negated ≡ true →
            StartsAbove self.now.ahead.pulled self.now.ahead.starts }
    {
        self.ahead.is_bounded();
    }
}
