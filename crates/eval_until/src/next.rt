//! NEXT over tables that are pushed position by position.
ghost use Rattle.std.specs.Prelude.{◌≡◌, ◌↔◌, ◌+◌, ◌<◌, ◌^◌, ◌∷◌, ◌++◌, ◌&&◌, [], ℕ, Bool, false, List};
ghost use Rattle.std.specs.Prelude.{IfOk, IfSome, IsTrue, MatchOption, OnOk, OnErr, is_some, length, nat_lt};
ghost use Rattle.mfotl_model.specs.Satisfaction.{Valuation, next, time_at, truth_at};
ghost use Rattle.mfotl_model.specs.Tables.{all_apart, has};
ghost use Rattle.eval_until.specs.NextData.{NextRule, next_of};
ghost use Rattle.eval_until.specs.NextView.{AdvancesNext, FollowsNext, next_due, tables_pushed, with_table};

use crate::recalled::NextData;
use mfotl_model::Interval;
use relations::{Table, copied_tables};
use std::alloc::{AllocError, Global};
use std::collections::VecDeque;
use std::marker::Model;

/// The state of NEXT: what was pushed and is still needed. The n-th table pushed, and the n-th time, are
/// those of position n.
#[derive(Drop)]
pub struct NextState {
    interval: Interval,
    columns: Vec<u32>,
    pulled: u64,
    times: VecDeque<u64>,
    started: bool,
    tables: VecDeque<Table>,
}

impl Model for NextState {
    ghost use Rattle.std.specs.Prelude.{◌≡◌, ◌≤◌, ◌+◌, ◌^◌, length, true};
    ghost use Rattle.mfotl_model.specs.Tables.{all_apart};
    ghost use Rattle.relations.specs.Pushed.{AreOver};
    ghost use Rattle.eval_until.specs.NextView.{NextOf};

    ghost Value = { NextOf };

    ghost view = { λ s. record {
      interval = s.interval;
      columns = s.columns.items;
      pulled = s.pulled;
      times = s.times.items;
      started = s.started;
      tables = s.tables.items;
    } };

    ghost invariant = { λ s. record {
      few : s.pulled + length s.times.items ≤ 2 ^ 63;
      apart : all_apart s.columns.items ≡ true;
      over : AreOver s.columns.items s.tables.items;
    } };
}

impl NextState {
    /// The state before the first position, for an operand over these columns.
    pub fn new(alloc: Global, interval: &Interval, columns: &[u32]) -> Result<Self, AllocError>
        requires apart { IsTrue (all_apart columns.now) }
        ensures state { IfOk result (λ state. state ≡ record {
          interval = interval.now;
          columns = columns.now;
          pulled = 0;
          times = [];
          started = false;
          tables = [];
        }) }
        ensures follows { IfOk result (λ state.
            (t : List ℕ) (a : List Bool) (v : Valuation) → FollowsNext state t a v) }
    {
        let columns = Vec::from_slice(alloc, columns)?;
        Ok(NextState {
            interval: *interval,
            columns,
            pulled: 0,
            times: VecDeque::new(alloc),
            started: false,
            tables: VecDeque::new(alloc),
        })
    }

    /// The state of which `kept` is the data, where `times` are those from the next position on.
    pub fn resume(
        alloc: Global,
        interval: &Interval,
        columns: &[u32],
        times: &[u64],
        kept: NextData,
    ) -> Result<Self, AllocError>
        requires apart { IsTrue (all_apart columns.now) }
        requires rule { NextRule columns.now times.now kept }
        ensures state { IfOk result (λ state.
            state ≡ next_of interval.now columns.now times.now kept) }
        ensures follows { IfOk result (λ state. (t : List ℕ) (a : List Bool) (v : Valuation) →
            FollowsNext (next_of interval.now columns.now times.now kept) t a v →
            FollowsNext state t a v) }
    {
        let NextData {
            pulled,
            started,
            tables,
        } = kept;
        let times = Vec::from_slice(alloc, times)?;
        let columns = Vec::from_slice(alloc, columns)?;
        Ok(NextState {
            interval: *interval,
            columns,
            pulled,
            times: VecDeque::from_vec(times),
            started,
            tables: VecDeque::from_vec(tables),
        })
    }

    /// The state of the same operand and interval of which `kept` is the data, where `times` are those from
    /// the next position on.
    pub fn resumed(self, alloc: Global, times: &[u64], kept: NextData) -> Result<Self, AllocError>
        requires rule { NextRule self.columns times.now kept }
        ensures state { IfOk result (λ state. state ≡ next_of self.interval self.columns times.now kept) }
        ensures follows { IfOk result (λ state. (t : List ℕ) (a : List Bool) (v : Valuation) →
            FollowsNext (next_of self.interval self.columns times.now kept) t a v → FollowsNext state t a v) }
    {
        let state = NextState::resume(alloc, &self.interval, self.columns.as_slice(), times, kept)?;
        Ok(state)
    }

    /// The times of the positions from the next one on.
    pub fn times(&self) -> &VecDeque<u64>
        ensures { result.now.items ≡ self.now.times }
    {
        &self.times
    }

    /// What the state keeps, as plain data.
    pub fn state(&self, alloc: Global) -> Result<NextData, AllocError>
        ensures same { IfOk result (λ kept.
            next_of self.now.interval self.now.columns self.now.times kept ≡ self.now) }
        ensures rule { IfOk result (λ kept. NextRule self.now.columns self.now.times kept) }
    {
        Ok(NextData {
            pulled: self.pulled,
            started: self.started,
            tables: copied_tables(alloc, &self.tables)?,
        })
    }

    /// Whether the table is over the operand's columns, as `push_right` asks.
    pub fn takes_right(&self, table: &Table) -> bool
        ensures { IsTrue result ↔ (table.now.columns ≡ self.now.columns) }
    {
        table.columns() == self.columns.as_slice()
    }

    /// Whether there are few enough times, as `push_time` asks.
    pub fn takes_time(&self) -> bool
        ensures { result ≡ nat_lt (self.now.pulled + length self.now.times) (2 ^ 63) }
    {
        self.pulled + (self.times.len() as u64) < 1 << 63
    }

    /// Pushes the operand's next table. The first position's is dropped: no position is before it.
    pub fn push_right(&mut self, table: Table) -> Result<(), AllocError>
        requires columns { table.columns ≡ self.old.columns }
        ensures pushed { OnOk result (self.new ≡ with_table self.old table) }
        ensures follows { OnOk result ((t : List ℕ) (a : List Bool) (v : Valuation) →
            FollowsNext self.old t a v →
            has table v ≡ truth_at a (tables_pushed self.old) →
            FollowsNext self.new t a v) }
    {
        if self.started {
            self.tables.push_back(table)?;
        } else {
            self.started = true;
        }
        Ok(())
    }

    /// Pushes the next position's time.
    pub fn push_time(&mut self, ts: u64) -> Result<(), AllocError>
        requires few { self.old.pulled + length self.old.times < 2 ^ 63 }
        ensures pushed { OnOk result
            (self.new ≡ record self.old { times = self.old.times ++ ts ∷ [] }) }
        ensures follows { OnOk result ((t : List ℕ) (a : List Bool) (v : Valuation) →
            FollowsNext self.old t a v →
            ts ≡ time_at t (self.old.pulled + length self.old.times) →
            self.old.pulled + length self.old.times < length t →
            FollowsNext self.new t a v) }
    {
        self.times.push_back(ts)?;
        Ok(())
    }

    /// Whether the next position can be pulled.
    pub fn is_due(&self) -> bool
        ensures { result ≡ next_due self.now }
    {
        self.times.len() > 1 && self.started && !self.tables.is_empty()
    }

    fn pull_due(&mut self, alloc: Global) -> Table
        requires due { IsTrue (next_due self.old) }
        ensures advances { AdvancesNext self.old self.new }
        ensures follows { (t : List ℕ) (a : List Bool) (v : Valuation) →
            FollowsNext self.old t a v → FollowsNext self.new t a v }
        ensures columns { result.columns ≡ self.old.columns }
        ensures rows { (t : List ℕ) (a : List Bool) (v : Valuation) →
            FollowsNext self.old t a v →
            has result v ≡ next self.old.interval t a self.old.pulled }
    {
        let Some(now) = self.times.pop_front() else {
            unreachable!();
        };
        let Some(table) = self.tables.pop_front() else {
            unreachable!();
        };
        let inside = self.interval.contains(self.times[0].saturating_sub(now));
        self.pulled += 1;
        table.only_where(alloc, inside)
    }

    /// The table of the next position, `None` while it is not due. Without memory the state stays.
    pub fn pull(&mut self, alloc: Global) -> Result<Option<Table>, AllocError>
        ensures due { IfOk result (λ answer. is_some answer ≡ next_due self.old) }
        ensures state { IfOk result (λ answer.
            MatchOption answer (self.new ≡ self.old) (λ _. AdvancesNext self.old self.new)) }
        ensures old { OnErr result (self.new ≡ self.old) }
        ensures follows { OnOk result ((t : List ℕ) (a : List Bool) (v : Valuation) →
            FollowsNext self.old t a v → FollowsNext self.new t a v) }
        ensures columns { IfOk result (λ answer. IfSome answer (λ table.
            table.columns ≡ self.old.columns)) }
        ensures rows { IfOk result (λ answer. IfSome answer (λ table.
            (t : List ℕ) (a : List Bool) (v : Valuation) → FollowsNext self.old t a v →
            has table v ≡ next self.old.interval t a self.old.pulled)) }
    {
        if !self.is_due() {
            return Ok(None);
        }
        Ok(Some(self.pull_due(alloc)))
    }
}
