//! Strategies.
ghost use Rattle.std.specs.Prelude.{◌≡◌, ◌<◌, ◌≤◌, ◌||◌, IfOk, IfSome, length, MatchOption, nat_eq, not};
ghost use Rattle.std.specs.Prelude.{slice_get, true, false};
ghost use Rattle.mfotl_model.specs.FreeVariables.{among};
ghost use Rattle.mfotl_model.specs.Regions.{near_of};
ghost use Rattle.mfotl_model.specs.Strategies.{owner_of, parts_of, strategy_part, workers_of};
ghost use Rattle.mfotl_model.specs.Tables.{valuation};
ghost use Rattle.slice_strategy.specs.Entries.{HasWorkers, entries_of, entry_of, part_by};
ghost use Rattle.slice_strategy.specs.Slicers.{NoneFrom, end_of, full_row};

use crate::entry::{Entry, count_workers};
use crate::nearest::nearest;
use mfotl_model::{Partial, Row, Value};
use std::alloc::{AllocError, Global};
use std::marker::Model;

/// Which worker each row of a policy belongs to: an entry for each of its free variables.
#[derive(Drop)]
pub struct Strategy {
    entries: Vec<Entry>,
    workers: u64,
}

impl Model for Strategy {
    ghost use Rattle.std.specs.Prelude.{◌≡◌};
    ghost use Rattle.mfotl_model.specs.Strategies.{Strategy as StrategyOf, workers_of};
    ghost use Rattle.slice_strategy.specs.Entries.{entries_of, HasWorkers};

    ghost Value = { StrategyOf };

    ghost view = { λ s. entries_of s.entries.items };

    ghost invariant = { λ s. HasWorkers (entries_of s.entries.items)
        × (s.workers ≡ workers_of (entries_of s.entries.items)) };
}

/// The value that a row gives to a variable, if it gives any.
pub(crate) fn value_at<'a>(part: &Partial<'a>, variable: usize) -> Option<&'a Value>
    requires { length part.now.cols.now ≡ length part.now.row.now }
    ensures { MatchOption result
        (among variable part.now.cols.now ≡ false)
        (λ value. (among variable part.now.cols.now ≡ true)
        × (value.now ≡ valuation part.now.cols.now part.now.row.now variable)) }
{
    let values = part.row.values();
    for i in 0..part.cols.len() {
        if part.cols[i] as usize == variable {
            return Some(&values[i]);
        }
    }
    None
}

/// Whether the row has a value in this part of the variable, or none at all.
fn lies_in(part: &Partial, variable: usize, entry: &Entry, number: u64) -> bool
    requires sized { length part.now.cols.now ≡ length part.now.row.now }
    requires some { 0 < parts_of (entry_of entry.now) }
    ensures { result ≡ (not (among variable part.now.cols.now)
        || nat_eq (strategy_part (entry_of entry.now) (valuation part.now.cols.now part.now.row.now variable)) number) }
{
    match value_at(part, variable) {
        Some(value) => entry.part(value) == number,
        None => true,
    }
}

impl Strategy {
    /// The strategy of these entries.
    pub(crate) fn new(entries: Vec<Entry>) -> Self
        requires { HasWorkers (entries_of entries.items) }
        ensures { result ≡ entries_of entries.items }
    {
        let workers = count_workers(entries.as_slice());
        Strategy { entries, workers }
    }

    /// The part of a free variable's values that this one is in, counted from 0.
    pub fn part(&self, variable: u32, value: &Value) -> u32
        requires { variable < length self.now }
        ensures { result ≡ part_by (slice_get self.now variable) value.now }
    {
        self.entries[variable as usize].part(value) as u32
    }

    pub fn copy(&self, alloc: Global) -> Result<Self, AllocError>
        ensures { IfOk result (λ strategy. strategy ≡ self.now) }
    {
        let mut entries = Vec::with_capacity(alloc, self.entries.len())?;
        for entry in &self.entries {
            entries.push(entry.copy(alloc)?)?;
        }
        Ok(Strategy {
            entries,
            workers: self.workers,
        })
    }

    /// How many workers there are.
    pub(crate) fn count(&self) -> u32
        ensures count { result ≡ workers_of self.now }
        ensures within { HasWorkers self.now }
    {
        self.workers as u32
    }

    /// The worker that a row over all free variables belongs to.
    pub(crate) fn owner_of(&self, row: &Row) -> u32
        requires { length row.now ≡ length self.now }
        ensures { result ≡ owner_of self.now (full_row row.now) }
    {
        let values = row.values();
        let mut number = 0;
        for (variable, entry) in self.entries.iter().enumerate() {
            number = number * entry.parts() + entry.part(&values[variable]);
        }
        number as u32
    }

    /// Whether worker `k` has the parts of all values that the row gives to free variables.
    pub(crate) fn is_near(&self, k: u32, part: &Partial) -> bool
        requires below { k < workers_of self.now }
        requires sized { length part.now.cols.now ≡ length part.now.row.now }
        ensures { result ≡ near_of self.now k part.now.cols.now (valuation part.now.cols.now part.now.row.now) }
    {
        let mut digits = u64::from(k);
        let mut place = self.workers;
        for (variable, entry) in self.entries.iter().enumerate() {
            place /= entry.parts();
            if !lies_in(part, variable, entry, digits / place) {
                return false;
            }
            digits %= place;
        }
        true
    }

    /// The first worker from `from` on that has the parts of all values that the row gives to free variables.
    pub(crate) fn find_near(&self, from: u32, part: &Partial) -> Option<u32>
        requires { length part.now.cols.now ≡ length part.now.row.now }
        ensures reached { IfSome result (λ k. (from ≤ k) × (k < workers_of self.now)) }
        ensures near { IfSome result (λ k.
            near_of self.now k part.now.cols.now (valuation part.now.cols.now part.now.row.now) ≡ true) }
        ensures first { NoneFrom from (end_of (workers_of self.now) result)
            (λ k. near_of self.now k part.now.cols.now (valuation part.now.cols.now part.now.row.now)) }
    {
        let from = u64::from(from);
        if from >= self.workers {
            return None;
        }
        let found = nearest(self.entries.as_slice(), 0, part, self.workers, from);
        match found.next {
            Some(k) => Some(k as u32),
            None => None,
        }
    }
}
