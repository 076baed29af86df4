//! How a state of UNTIL goes on: what is pushed, taken and pulled.
ghost use Rattle.std.specs.Prelude.{◌≡◌, ◌+◌, ◌-◌, ◌<◌, ◌^◌, ◌∷◌, ◌++◌, [], ℕ, Bool, List};
ghost use Rattle.std.specs.Prelude.{IfOk, IfSome, IsTrue, MatchOption, OnOk, is_some, length, min, not};
ghost use Rattle.mfotl_model.specs.Satisfaction.{Valuation, time_at, truth_at, until};
ghost use Rattle.mfotl_model.specs.Tables.{all_among, has, valuation};
ghost use Rattle.mfotl_model.specs.Times.{NeverFalls};
ghost use Rattle.relations.specs.Pushed.{left_holds};
ghost use Rattle.eval_until.specs.UntilView.{Advances, Follows, FollowsLeft, Takes};
ghost use Rattle.eval_until.specs.UntilView.{due, past_bound, to_take, took_all};

use crate::until::UntilState;
use mfotl_model::Row;
use relations::{Table, first_pushed, part_of};
use std::alloc::{AllocError, Global};
use std::collections::VecDeque;

// whether the time at the place, or the last one, lies further than `hi` from the first
fn is_past(times: &VecDeque<u64>, hi: Option<u64>, place: u64) -> bool
    ensures { result ≡ past_bound hi place times.now.items }
{
    let Some(hi) = hi else {
        return false;
    };
    if times.is_empty() {
        return false;
    }
    let last = times.len() as u64 - 1;
    times[place.min(last) as usize].saturating_sub(times[0]) > hi
}

impl UntilState {
    /// Pushes the left operand's next table, which of a negated operand is the operand's own.
    pub fn push_left(&mut self, table: Table) -> Result<(), AllocError>
        requires columns { table.columns ≡ self.old.ahead.left }
        ensures pushed { OnOk result
            (self.new ≡ record self.old { lefts = self.old.lefts ++ table ∷ [] }) }
        ensures left { OnOk result ((a : List Bool) (v : Valuation) →
            FollowsLeft self.old a v →
            left_holds self.old.ahead.negated table v
            ≡ truth_at a (self.old.ahead.taken + length self.old.lefts) →
            FollowsLeft self.new a v) }
        ensures follows { OnOk result ((t : List ℕ) (a b : List Bool) (v : Valuation) →
            Follows self.old t a b v →
            left_holds self.old.ahead.negated table v
            ≡ truth_at a (self.old.ahead.taken + length self.old.lefts) →
            Follows self.new t a b v) }
    {
        self.lefts.push_back(table)?;
        Ok(())
    }

    /// Pushes the right operand's next table.
    pub fn push_right(&mut self, table: Table) -> Result<(), AllocError>
        requires columns { table.columns ≡ self.old.ahead.right }
        ensures pushed { OnOk result
            (self.new ≡ record self.old { rights = self.old.rights ++ table ∷ [] }) }
        ensures left { OnOk result ((a : List Bool) (v : Valuation) →
            FollowsLeft self.old a v → FollowsLeft self.new a v) }
        ensures follows { OnOk result ((t : List ℕ) (a b : List Bool) (v : Valuation) →
            Follows self.old t a b v →
            has table v ≡ truth_at b (self.old.ahead.taken + length self.old.rights) →
            Follows self.new t a b v) }
    {
        self.rights.push_back(table)?;
        Ok(())
    }

    /// Pushes the next position's time.
    pub fn push_time(&mut self, ts: u64) -> Result<(), AllocError>
        requires few { self.old.ahead.pulled + length self.old.times < 2 ^ 63 }
        ensures pushed { OnOk result
            (self.new ≡ record self.old { times = self.old.times ++ ts ∷ [] }) }
        ensures left { OnOk result ((a : List Bool) (v : Valuation) →
            FollowsLeft self.old a v → FollowsLeft self.new a v) }
        ensures follows { OnOk result ((t : List ℕ) (a b : List Bool) (v : Valuation) →
            Follows self.old t a b v →
            ts ≡ time_at t (self.old.ahead.pulled + length self.old.times) →
            self.old.ahead.pulled + length self.old.times < length t →
            Follows self.new t a b v) }
    {
        self.times.push_back(ts)?;
        Ok(())
    }

    fn can_take(&self) -> bool
        ensures { result ≡ not (took_all self.now) }
    {
        let place = self.ahead.taken() - self.ahead.pulled();
        place < self.times.len() as u64 && !self.lefts.is_empty() && !self.rights.is_empty()
    }

    // a function apart, since most calls of `take_all` find nothing to take
    #[inline(never)]
    fn take_one(&mut self, alloc: Global) -> Result<(), AllocError>
        requires { IsTrue (not (took_all self.old)) }
        ensures takes { OnOk result (Takes 1 self.old self.new) }
        ensures left { OnOk result ((a : List Bool) (v : Valuation) →
            FollowsLeft self.old a v → FollowsLeft self.new a v) }
        ensures follows { OnOk result ((t : List ℕ) (a b : List Bool) (v : Valuation) →
            Follows self.old t a b v → Follows self.new t a b v) }
    {
        let place = self.ahead.taken() - self.ahead.pulled();
        let ts = self.times[place as usize];
        let Some(left) = self.lefts.pop_front() else {
            unreachable!();
        };
        let Some(right) = self.rights.pop_front() else {
            unreachable!();
        };
        self.ahead.take(alloc, left, right, ts)?;
        Ok(())
    }

    /// Takes the positions that can be taken.
    pub fn take_all(&mut self, alloc: Global) -> Result<(), AllocError>
        ensures takes { OnOk result (Takes (to_take self.old) self.old self.new) }
        ensures all { OnOk result (IsTrue (took_all self.new)) }
        ensures due { OnOk result (due self.new ≡ due self.old) }
        ensures left { OnOk result ((a : List Bool) (v : Valuation) →
            FollowsLeft self.old a v → FollowsLeft self.new a v) }
        ensures follows { OnOk result ((t : List ℕ) (a b : List Bool) (v : Valuation) →
            Follows self.old t a b v → Follows self.new t a b v) }
    {
        while self.can_take() {
            self.take_one(alloc)?;
        }
        Ok(())
    }

    /// Whether the next position can be pulled.
    pub fn is_due(&self) -> bool
        ensures { result ≡ due self.now }
    {
        let tables = self.lefts.len().min(self.rights.len()) as u64;
        let place = (self.ahead.taken() - self.ahead.pulled()).saturating_add(tables);
        is_past(&self.times, self.ahead.interval().hi, place)
    }

    /// Whether the next position's table has the valuation that a row gives to its columns, without
    /// making the table. The columns are any, the right operand's among them.
    pub fn holds(&self, alloc: Global, columns: &[u32], row: &Row) -> Result<bool, AllocError>
        requires due { IsTrue (due self.now) }
        requires all { IsTrue (took_all self.now) }
        ensures { IfOk result (λ yes. (t : List ℕ) (a b : List Bool) →
            Follows self.now t a b (valuation columns.now row.now) → NeverFalls t →
            yes ≡ until self.now.ahead.interval t a b self.now.ahead.pulled) }
    {
        let now = first_pushed(&self.times);
        let own = part_of(alloc, columns, self.ahead.right(), row.values())?;
        Ok(self.ahead.met(&own, self.ahead.pulled(), *now))
    }

    /// The table of the next position.
    pub fn table(&self, alloc: Global) -> Result<Table, AllocError>
        requires due { IsTrue (due self.now) }
        requires all { IsTrue (took_all self.now) }
        ensures columns { IfOk result (λ table. table.columns ≡ self.now.ahead.right) }
        ensures rows { IfOk result (λ table. (t : List ℕ) (a b : List Bool) (v : Valuation) →
            Follows self.now t a b v → NeverFalls t →
            has table v ≡ until self.now.ahead.interval t a b self.now.ahead.pulled) }
    {
        let now = first_pushed(&self.times);
        let table = self.ahead.table(alloc, self.ahead.pulled(), *now)?;
        Ok(table)
    }

    /// Of the table of the next position at least the rows whose part at the columns of `keys` is one of its
    /// rows. By the columns that the state is made with these are found at once.
    pub fn table_of(&self, alloc: Global, keys: &Table) -> Result<Table, AllocError>
        requires due { IsTrue (due self.now) }
        requires all { IsTrue (took_all self.now) }
        requires inside { IsTrue (all_among keys.now.columns self.now.ahead.right) }
        ensures columns { IfOk result (λ table. table.columns ≡ self.now.ahead.right) }
        ensures rows { IfOk result (λ table. (t : List ℕ) (a b : List Bool) (v : Valuation) →
            Follows self.now t a b v → NeverFalls t → IsTrue (has keys.now v) →
            has table v ≡ until self.now.ahead.interval t a b self.now.ahead.pulled) }
    {
        let now = first_pushed(&self.times);
        let table = self.ahead.table_of(alloc, self.ahead.pulled(), *now, keys)?;
        Ok(table)
    }

    fn go_on(&mut self, alloc: Global)
        requires due { IsTrue (due self.old) }
        requires all { IsTrue (took_all self.old) }
        ensures advances { Advances 0 self.old self.new }
        ensures left { (a : List Bool) (v : Valuation) →
            FollowsLeft self.old a v → FollowsLeft self.new a v }
        ensures follows { (t : List ℕ) (a b : List Bool) (v : Valuation) →
            Follows self.old t a b v → Follows self.new t a b v }
    {
        let Some(_now) = self.times.pop_front() else {
            unreachable!();
        };
        self.ahead.advance(alloc);
    }

    /// Pulls one position, without its table.
    pub fn advance(&mut self, alloc: Global) -> Result<(), AllocError>
        requires due { IsTrue (due self.old) }
        ensures advances { OnOk result (Advances (to_take self.old) self.old self.new) }
        ensures left { OnOk result ((a : List Bool) (v : Valuation) →
            FollowsLeft self.old a v → FollowsLeft self.new a v) }
        ensures follows { OnOk result ((t : List ℕ) (a b : List Bool) (v : Valuation) →
            Follows self.old t a b v → Follows self.new t a b v) }
    {
        self.take_all(alloc)?;
        self.go_on(alloc);
        Ok(())
    }

    /// The table of the next position, `None` while it is not due. Either way the positions are taken
    /// that can be.
    pub fn pull(&mut self, alloc: Global) -> Result<Option<Table>, AllocError>
        ensures due { IfOk result (λ answer. is_some answer ≡ due self.old) }
        ensures state { IfOk result (λ answer.
            MatchOption answer (Takes (to_take self.old) self.old self.new)
            (λ _. Advances (to_take self.old) self.old self.new)) }
        ensures left { OnOk result ((a : List Bool) (v : Valuation) →
            FollowsLeft self.old a v → FollowsLeft self.new a v) }
        ensures follows { OnOk result ((t : List ℕ) (a b : List Bool) (v : Valuation) →
            Follows self.old t a b v → Follows self.new t a b v) }
        ensures columns { IfOk result (λ answer. IfSome answer (λ table.
            table.columns ≡ self.old.ahead.right)) }
        ensures rows { IfOk result (λ answer. IfSome answer (λ table.
            (t : List ℕ) (a b : List Bool) (v : Valuation) →
            Follows self.old t a b v → NeverFalls t →
            has table v ≡ until self.old.ahead.interval t a b self.old.ahead.pulled)) }
    {
        self.take_all(alloc)?;
        if !self.is_due() {
            return Ok(None);
        }
        let table = self.table(alloc)?;
        self.go_on(alloc);
        Ok(Some(table))
    }
}
