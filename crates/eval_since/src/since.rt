//! SINCE over tables that are pushed position by position.
ghost use Rattle.std.specs.Prelude.{◌≡◌, ◌↔◌, ◌+◌, ◌-◌, ◌<◌, ◌≤◌, ◌^◌, ◌&&◌, [], ℕ, Bool, List, None, Some};
ghost use Rattle.std.specs.Prelude.{IfOk, IfSome, IsTrue, cond, length, nat_eq, nat_le, nat_lt};
ghost use Rattle.mfotl_model.specs.Satisfaction.{Valuation};
ghost use Rattle.mfotl_model.specs.Tables.{all_among, all_apart};
ghost use Rattle.mfotl_model.specs.Times.{Climbs};
ghost use Rattle.mfotl_model.specs.declared.value.Value.{Value};
ghost use Rattle.row_times.specs.Groups.{NoneEmpty};
ghost use Rattle.eval_since.specs.LeftOperand.{grouping};
ghost use Rattle.relations.specs.KeptRows.{filled, kept_for};
ghost use Rattle.eval_since.specs.Recalled.{recalls};
ghost use Rattle.row_times.specs.KeptTimes.{times_for, times_kept};
ghost use Rattle.eval_since.specs.WindowView.{kept_times, within};
ghost use Rattle.eval_since.specs.SinceData.{FollowsData, KeepsRule, newest_of, setting_of};
ghost use Rattle.eval_since.specs.Windows.{Alone, Ascending, Bounded, Past, Placed};
ghost use Rattle.eval_since.specs.SinceView.{Follows, SinceOf};

use crate::latest_time::latest;
use crate::recalled::SinceData;
use crate::window::Window;
use mfotl_model::Interval;
use relations::{Table, copied_tables};
use std::alloc::{AllocError, Global};
use std::collections::VecDeque;
use std::marker::Model;

/// The state of SINCE: its window after the positions pulled, and what was pushed for later ones. The
/// n-th table pushed on a side, and the n-th time, are those of position n.
#[derive(Drop)]
pub struct SinceState {
    pub(crate) window: Window,
    pub(crate) negated: bool,
    pub(crate) pulled: u64,
    pub(crate) newest: u64,
    pub(crate) times: VecDeque<u64>,
    pub(crate) lefts: VecDeque<Table>,
    pub(crate) rights: VecDeque<Table>,
}

impl Model for SinceState {
    ghost use Rattle.std.specs.Prelude.{◌≡◌, ◌≤◌, ◌+◌, ◌^◌, length, true};
    ghost use Rattle.mfotl_model.specs.Tables.{all_among};
    ghost use Rattle.mfotl_model.specs.Times.{Climbs};
    ghost use Rattle.relations.specs.Pushed.{AreOver};
    ghost use Rattle.eval_since.specs.SinceView.{SinceOf};
    ghost use Rattle.eval_since.specs.Windows.{IsBlank};

    ghost Value = { SinceOf };

    ghost view = { λ s. record {
      window = s.window;
      negated = s.negated;
      pulled = s.pulled;
      newest = s.newest;
      times = s.times.items;
      lefts = s.lefts.items;
      rights = s.rights.items;
    } };

    ghost invariant = { λ s. record {
      climbs : Climbs s.window.last s.times.items s.newest;
      few : s.pulled + length s.times.items ≤ 2 ^ 63;
      inside : all_among s.window.left s.window.right ≡ true;
      over_left : AreOver s.window.left s.lefts.items;
      over : AreOver s.window.right s.rights.items;
      begins : s.pulled ≡ 0 → IsBlank s.window.groups;
    } };
}

impl SinceState {
    /// The state before the first position, for operands over these columns.
    pub fn new(
        alloc: Global,
        interval: &Interval,
        left: &[u32],
        right: &[u32],
        negated: bool,
    ) -> Result<Self, AllocError>
        requires apart { IsTrue (all_apart right.now) }
        requires inside { IsTrue (all_among left.now right.now) }
        ensures state { IfOk result (λ state. state ≡ record {
          window = record {
            interval = interval.now;
            left = left.now;
            right = right.now;
            keys = grouping left.now [];
            last = 0;
            groups = [];
          };
          negated = negated;
          pulled = 0;
          newest = 0;
          times = [];
          lefts = [];
          rights = [];
        }) }
        ensures follows { IfOk result (λ state.
            (t : List ℕ) (a b : List Bool) (v : Valuation) → Follows state t a b v) }
    {
        SinceState::keyed(alloc, interval, left, right, negated, &[])
    }

    /// The same, which finds rows by their values in the columns of `keys` at once where the left operand
    /// is closed.
    pub fn keyed(
        alloc: Global,
        interval: &Interval,
        left: &[u32],
        right: &[u32],
        negated: bool,
        keys: &[u32],
    ) -> Result<Self, AllocError>
        requires apart { IsTrue (all_apart right.now) }
        requires inside { IsTrue (all_among left.now right.now) }
        ensures state { IfOk result (λ state. state ≡ record {
          window = record {
            interval = interval.now;
            left = left.now;
            right = right.now;
            keys = grouping left.now keys.now;
            last = 0;
            groups = [];
          };
          negated = negated;
          pulled = 0;
          newest = 0;
          times = [];
          lefts = [];
          rights = [];
        }) }
        ensures follows { IfOk result (λ state.
            (t : List ℕ) (a b : List Bool) (v : Valuation) → Follows state t a b v) }
    {
        let left = Vec::from_slice(alloc, left)?;
        let right = Vec::from_slice(alloc, right)?;
        let keys = Vec::from_slice(alloc, keys)?;
        Ok(SinceState {
            window: Window::new(alloc, *interval, left, right, keys),
            negated,
            pulled: 0,
            newest: 0,
            times: VecDeque::new(alloc),
            lefts: VecDeque::new(alloc),
            rights: VecDeque::new(alloc),
        })
    }

    /// The state of which `kept` is the data, where `last` is the time of the position pulled last and
    /// `times` are those from the next one on.
    pub fn resume(
        alloc: Global,
        interval: &Interval,
        left: &[u32],
        right: &[u32],
        negated: bool,
        last: u64,
        times: &[u64],
        kept: SinceData,
    ) -> Result<Self, AllocError>
        requires apart { IsTrue (all_apart right.now) }
        requires inside { IsTrue (all_among left.now right.now) }
        requires rule { KeepsRule (record {
          interval = interval.now;
          left = left.now;
          right = right.now;
          negated = negated;
        }) last times.now kept }
        ensures setting { IfOk result (λ state. setting_of state
            ≡ record { interval = interval.now; left = left.now; right = right.now; negated = negated }) }
        ensures pulled { IfOk result (λ state. state.pulled ≡ kept.pulled) }
        ensures last { IfOk result (λ state. state.window.last ≡ last) }
        ensures newest { IfOk result (λ state. state.newest ≡ newest_of last times.now) }
        ensures times { IfOk result (λ state. state.times ≡ times.now) }
        ensures lefts { IfOk result (λ state. state.lefts ≡ kept.lefts.items) }
        ensures rights { IfOk result (λ state. state.rights ≡ kept.rights.items) }
        ensures kept { IfOk result (λ state. (u : List Value) →
            kept_times state.window u ≡ times_for kept.rows.items u) }
        ensures follows { IfOk result (λ state.
            (t : List ℕ) (a b : List Bool) (v : Valuation) →
            FollowsData (record {
              interval = interval.now;
              left = left.now;
              right = right.now;
              negated = negated;
            }) last times.now kept t a b v →
            Follows state t a b v) }
    {
        let fresh = SinceState::new(alloc, interval, left, right, negated)?;
        let state = fresh.resumed(alloc, last, times, kept)?;
        Ok(state)
    }

    /// The state of the same operands and interval of which `kept` is the data, where `last` is the time of
    /// the position pulled last and `times` are those from the next one on.
    pub fn resumed(
        self,
        alloc: Global,
        last: u64,
        times: &[u64],
        kept: SinceData,
    ) -> Result<Self, AllocError>
        requires rule { KeepsRule (setting_of self) last times.now kept }
        ensures setting { IfOk result (λ state. setting_of state ≡ setting_of self) }
        ensures pulled { IfOk result (λ state. state.pulled ≡ kept.pulled) }
        ensures last { IfOk result (λ state. state.window.last ≡ last) }
        ensures newest { IfOk result (λ state. state.newest ≡ newest_of last times.now) }
        ensures times { IfOk result (λ state. state.times ≡ times.now) }
        ensures lefts { IfOk result (λ state. state.lefts ≡ kept.lefts.items) }
        ensures rights { IfOk result (λ state. state.rights ≡ kept.rights.items) }
        ensures kept { IfOk result (λ state. (u : List Value) →
            kept_times state.window u ≡ times_for kept.rows.items u) }
        ensures follows { IfOk result (λ state.
            (t : List ℕ) (a b : List Bool) (v : Valuation) →
            FollowsData (setting_of self) last times.now kept t a b v → Follows state t a b v) }
    {
        let newest = latest(times, last);
        let times = Vec::from_slice(alloc, times)?;
        let window = self.window.resumed(alloc, last, kept.rows)?;
        Ok(SinceState {
            window,
            negated: self.negated,
            pulled: kept.pulled,
            newest,
            times: VecDeque::from_vec(times),
            lefts: VecDeque::from_vec(kept.lefts),
            rights: VecDeque::from_vec(kept.rights),
        })
    }

    pub fn interval(&self) -> &Interval
        ensures { result.now ≡ self.now.window.interval }
    {
        self.window.interval()
    }

    /// The right operand's columns, those of the rows that are kept.
    pub fn columns(&self) -> &[u32]
        ensures { result.now ≡ self.now.window.right }
    {
        self.window.right()
    }

    /// The time of the position pulled last, if one was.
    pub fn last(&self) -> Option<u64>
        ensures { result ≡ cond (nat_eq self.now.pulled 0) None (Some self.now.window.last) }
    {
        (self.pulled > 0).then_some(self.window.last())
    }

    /// The times of the positions from the next one on.
    pub fn times(&self) -> &VecDeque<u64>
        ensures { result.now.items ≡ self.now.times }
    {
        &self.times
    }

    /// Whether the table is over the left operand's columns, as `push_left` asks.
    pub fn takes_left(&self, table: &Table) -> bool
        ensures { IsTrue result ↔ (table.now.columns ≡ self.now.window.left) }
    {
        table.columns() == self.window.left()
    }

    /// Whether the table is over the right operand's columns, as `push_right` asks.
    pub fn takes_right(&self, table: &Table) -> bool
        ensures { IsTrue result ↔ (table.now.columns ≡ self.now.window.right) }
    {
        table.columns() == self.window.right()
    }

    /// Whether the time is no earlier than the latest one, and there are few enough, as `push_time`
    /// asks.
    pub fn takes_time(&self, ts: u64) -> bool
        ensures { result ≡ (nat_le self.now.newest ts
            && nat_lt (self.now.pulled + length self.now.times) (2 ^ 63)) }
    {
        self.newest <= ts && self.pulled + (self.times.len() as u64) < 1 << 63
    }

    /// Of the times kept for a row: they ascend, lie no further back from the last position pulled
    /// than the interval's greatest number, are not after that position's time, and stand in the
    /// row's own group; without a greatest number there is one at most. No row is kept without times,
    /// and no group without rows.
    pub fn keeps_no_more(&self)
        ensures bounded { IfSome self.now.window.interval.hi (λ hi.
            Bounded hi self.now.window.last self.now.window.groups) }
        ensures past { Past self.now.window.last self.now.window.groups }
        ensures ascend { Ascending self.now.window.groups }
        ensures alone { self.now.window.interval.hi ≡ None → Alone self.now.window.groups }
        ensures some { NoneEmpty self.now.window.groups }
        ensures placed { Placed self.now.window.right self.now.window.keys self.now.window.groups }
    {
        self.window.is_bounded();
    }

    /// What the state keeps, as plain data.
    pub fn state(&self, alloc: Global) -> Result<SinceData, AllocError>
        ensures pulled { IfOk result (λ kept. kept.pulled ≡ self.now.pulled) }
        ensures lefts { IfOk result (λ kept. kept.lefts.items ≡ self.now.lefts) }
        ensures rights { IfOk result (λ kept. kept.rights.items ≡ self.now.rights) }
        ensures rows { IfOk result (λ kept. (x : ℕ) (u : List Value) →
            recalls self.now.window.interval kept.rows.items x u ≡ within self.now.window x u) }
        ensures kept { IfOk result (λ kept. (u : List Value) →
            kept_for (times_kept kept.rows.items) u ≡ filled (kept_times self.now.window u)) }
        ensures rule { IfOk result (λ kept.
            KeepsRule (setting_of self.now) self.now.window.last self.now.times kept) }
        ensures follows { IfOk result (λ kept.
            (t : List ℕ) (a b : List Bool) (v : Valuation) → Follows self.now t a b v →
            FollowsData (setting_of self.now) self.now.window.last self.now.times kept t a b v) }
    {
        Ok(SinceData {
            pulled: self.pulled,
            lefts: copied_tables(alloc, &self.lefts)?,
            rights: copied_tables(alloc, &self.rights)?,
            rows: self.window.kept(alloc)?,
        })
    }
}
