//! PREVIOUS over tables that are pushed position by position.
ghost use Rattle.std.specs.Prelude.{◌≡◌, ◌+◌, ◌-◌, ◌<◌, ◌^◌, ◌∷◌, ◌++◌, ◌&&◌, [], Bool, IfOk, IfSome, IsTrue};
ghost use Rattle.std.specs.Prelude.{List, MatchOption, None, OnOk, OnErr, Some, cond, is_some, length};
ghost use Rattle.std.specs.Prelude.{nat_eq, nat_lt, ℕ, ◌↔◌};
ghost use Rattle.mfotl_model.specs.Satisfaction.{Valuation, previous, time_at, truth_at};
ghost use Rattle.mfotl_model.specs.Tables.{all_apart, has};
ghost use Rattle.eval_since.specs.PreviousData.{PreviousRule, previous_of};
ghost use Rattle.eval_since.specs.PreviousView.{AdvancesPrevious, FollowsPrevious, previous_due};

use crate::recalled::PrevData;
use mfotl_model::Interval;
use relations::{Columns, Table, copied_tables};
use std::alloc::{AllocError, Global};
use std::collections::VecDeque;
use std::marker::Model;

/// The state of PREVIOUS: what was pushed and is still needed. The n-th table pushed, and the n-th
/// time, are those of position n.
#[derive(Drop)]
pub struct PrevState {
    interval: Interval,
    columns: Vec<u32>,
    pulled: u64,
    last: u64,
    times: VecDeque<u64>,
    tables: VecDeque<Table>,
}

impl Model for PrevState {
    ghost use Rattle.std.specs.Prelude.{◌≡◌, ◌≤◌, ◌+◌, ◌^◌, length, true};
    ghost use Rattle.mfotl_model.specs.Tables.{all_apart};
    ghost use Rattle.relations.specs.Pushed.{AreOver};
    ghost use Rattle.eval_since.specs.PreviousView.{PrevOf};

    ghost Value = { PrevOf };

    ghost view = { λ s. record {
      interval = s.interval;
      columns = s.columns.items;
      pulled = s.pulled;
      last = s.last;
      times = s.times.items;
      tables = s.tables.items;
    } };

    ghost invariant = { λ s. record {
      few : s.pulled + length s.times.items ≤ 2 ^ 63;
      apart : all_apart s.columns.items ≡ true;
      over : AreOver s.columns.items s.tables.items;
    } };
}

impl PrevState {
    /// The state before the first position, for an operand over these columns.
    pub fn new(alloc: Global, interval: &Interval, columns: &[u32]) -> Result<Self, AllocError>
        requires apart { IsTrue (all_apart columns.now) }
        ensures state { IfOk result (λ state. state ≡ record {
          interval = interval.now;
          columns = columns.now;
          pulled = 0;
          last = 0;
          times = [];
          tables = [];
        }) }
        ensures follows { IfOk result (λ state.
            (t : List ℕ) (a : List Bool) (v : Valuation) → FollowsPrevious state t a v) }
    {
        let columns = Vec::from_slice(alloc, columns)?;
        Ok(PrevState {
            interval: *interval,
            columns,
            pulled: 0,
            last: 0,
            times: VecDeque::new(alloc),
            tables: VecDeque::new(alloc),
        })
    }

    /// The state of which `kept` is the data, where `last` is the time of the position pulled last and
    /// `times` are those from the next one on.
    pub fn resume(
        alloc: Global,
        interval: &Interval,
        columns: &[u32],
        last: u64,
        times: &[u64],
        kept: PrevData,
    ) -> Result<Self, AllocError>
        requires apart { IsTrue (all_apart columns.now) }
        requires rule { PreviousRule columns.now times.now kept }
        ensures state { IfOk result (λ state.
            state ≡ previous_of interval.now columns.now last times.now kept) }
        ensures follows { IfOk result (λ state. (t : List ℕ) (a : List Bool) (v : Valuation) →
            FollowsPrevious (previous_of interval.now columns.now last times.now kept) t a v →
            FollowsPrevious state t a v) }
    {
        let PrevData { pulled, tables } = kept;
        let times = Vec::from_slice(alloc, times)?;
        let columns = Vec::from_slice(alloc, columns)?;
        Ok(PrevState {
            interval: *interval,
            columns,
            pulled,
            last,
            times: VecDeque::from_vec(times),
            tables: VecDeque::from_vec(tables),
        })
    }

    /// What the state keeps, as plain data.
    pub fn state(&self, alloc: Global) -> Result<PrevData, AllocError>
        ensures same { IfOk result (λ kept.
            previous_of self.now.interval self.now.columns self.now.last self.now.times kept ≡ self.now) }
        ensures rule { IfOk result (λ kept. PreviousRule self.now.columns self.now.times kept) }
    {
        Ok(PrevData {
            pulled: self.pulled,
            tables: copied_tables(alloc, &self.tables)?,
        })
    }

    /// The state of the same operand and interval of which `kept` is the data, where `last` is the time of
    /// the position pulled last and `times` are those from the next one on.
    pub fn resumed(
        self,
        alloc: Global,
        last: u64,
        times: &[u64],
        kept: PrevData,
    ) -> Result<Self, AllocError>
        requires rule { PreviousRule self.columns times.now kept }
        ensures { IfOk result (λ state. state ≡ previous_of self.interval self.columns last times.now kept) }
    {
        let state = PrevState::resume(
            alloc,
            &self.interval,
            self.columns.as_slice(),
            last,
            times,
            kept,
        )?;
        Ok(state)
    }

    /// The time of the position pulled last, if one was.
    pub fn last(&self) -> Option<u64>
        ensures { result ≡ cond (nat_eq self.now.pulled 0) None (Some self.now.last) }
    {
        if self.pulled == 0 {
            None
        } else {
            Some(self.last)
        }
    }

    /// The times of the positions from the next one on.
    pub fn times(&self) -> &VecDeque<u64>
        ensures { result.now.items ≡ self.now.times }
    {
        &self.times
    }

    /// Whether the table is over the operand's columns, as `push_right` asks.
    pub fn takes_right(&self, table: &Table) -> bool
        ensures { IsTrue result ↔ (table.now.columns ≡ self.now.columns) }
    {
        table.columns() == self.columns.as_slice()
    }

    /// Whether there are few enough times, as `push_time` asks.
    pub fn takes_time(&self) -> bool
        ensures { result ≡ nat_lt (self.now.pulled + length self.now.times) (2 ^ 63) }
    {
        self.pulled + (self.times.len() as u64) < 1 << 63
    }

    /// Takes the operand's next table.
    pub fn push_right(&mut self, table: Table) -> Result<(), AllocError>
        requires columns { table.columns ≡ self.old.columns }
        ensures pushed { OnOk result
            (self.new ≡ record self.old { tables = self.old.tables ++ table ∷ [] }) }
        ensures follows { OnOk result ((t : List ℕ) (a : List Bool) (v : Valuation) →
            FollowsPrevious self.old t a v →
            has table v ≡ truth_at a (self.old.pulled - 1 + length self.old.tables) →
            FollowsPrevious self.new t a v) }
    {
        self.tables.push_back(table)?;
        Ok(())
    }

    /// Takes the next position's time.
    pub fn push_time(&mut self, ts: u64) -> Result<(), AllocError>
        requires few { self.old.pulled + length self.old.times < 2 ^ 63 }
        ensures pushed { OnOk result
            (self.new ≡ record self.old { times = self.old.times ++ ts ∷ [] }) }
        ensures follows { OnOk result ((t : List ℕ) (a : List Bool) (v : Valuation) →
            FollowsPrevious self.old t a v →
            ts ≡ time_at t (self.old.pulled + length self.old.times) →
            FollowsPrevious self.new t a v) }
    {
        self.times.push_back(ts)?;
        Ok(())
    }

    /// Whether the next position can be pulled.
    pub fn is_due(&self) -> bool
        ensures { result ≡ previous_due self.now }
    {
        !self.times.is_empty() && (self.pulled == 0 || !self.tables.is_empty())
    }

    // nothing is before the first position
    fn pull_first(&mut self, alloc: Global, columns: Columns) -> Table
        requires first { self.old.pulled ≡ 0 }
        requires due { IsTrue (previous_due self.old) }
        requires over { columns.items ≡ self.old.columns }
        ensures advances { AdvancesPrevious self.old self.new }
        ensures follows { (t : List ℕ) (a : List Bool) (v : Valuation) →
            FollowsPrevious self.old t a v → FollowsPrevious self.new t a v }
        ensures columns { result.columns ≡ self.old.columns }
        ensures rows { (t : List ℕ) (a : List Bool) (v : Valuation) →
            FollowsPrevious self.old t a v →
            has result v ≡ previous self.old.interval t a self.old.pulled }
    {
        let Some(now) = self.times.pop_front() else {
            unreachable!();
        };
        self.last = now;
        self.pulled += 1;
        Table::empty(alloc, columns)
    }

    fn pull_later(&mut self, alloc: Global) -> Table
        requires later { 0 < self.old.pulled }
        requires due { IsTrue (previous_due self.old) }
        ensures advances { AdvancesPrevious self.old self.new }
        ensures follows { (t : List ℕ) (a : List Bool) (v : Valuation) →
            FollowsPrevious self.old t a v → FollowsPrevious self.new t a v }
        ensures columns { result.columns ≡ self.old.columns }
        ensures rows { (t : List ℕ) (a : List Bool) (v : Valuation) →
            FollowsPrevious self.old t a v →
            has result v ≡ previous self.old.interval t a self.old.pulled }
    {
        let Some(now) = self.times.pop_front() else {
            unreachable!();
        };
        let Some(table) = self.tables.pop_front() else {
            unreachable!();
        };
        let inside = self.interval.contains(now.saturating_sub(self.last));
        self.last = now;
        self.pulled += 1;
        table.only_where(alloc, inside)
    }

    /// The table of the next position, `None` while it is not due. Without memory the state stays.
    pub fn pull(&mut self, alloc: Global) -> Result<Option<Table>, AllocError>
        ensures due { IfOk result (λ answer. is_some answer ≡ previous_due self.old) }
        ensures state { IfOk result (λ answer.
            MatchOption answer (self.new ≡ self.old) (λ _. AdvancesPrevious self.old self.new)) }
        ensures old { OnErr result (self.new ≡ self.old) }
        ensures follows { OnOk result ((t : List ℕ) (a : List Bool) (v : Valuation) →
            FollowsPrevious self.old t a v → FollowsPrevious self.new t a v) }
        ensures columns { IfOk result (λ answer. IfSome answer (λ table.
            table.columns ≡ self.old.columns)) }
        ensures rows { IfOk result (λ answer. IfSome answer (λ table.
            (t : List ℕ) (a : List Bool) (v : Valuation) → FollowsPrevious self.old t a v →
            has table v ≡ previous self.old.interval t a self.old.pulled)) }
    {
        if !self.is_due() {
            return Ok(None);
        }
        if self.pulled > 0 {
            return Ok(Some(self.pull_later(alloc)));
        }
        let columns = Columns::from_slice(alloc, self.columns.as_slice())?;
        Ok(Some(self.pull_first(alloc, columns)))
    }
}
