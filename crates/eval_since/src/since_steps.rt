//! How a state of SINCE goes on: what is pushed, asked and pulled.
ghost use Rattle.std.specs.Prelude.{◌≡◌, ◌+◌, ◌-◌, ◌<◌, ◌≤◌, ◌^◌, ◌∷◌, ◌++◌, ◌&&◌, [], ℕ, Bool, List, None, Some};
ghost use Rattle.std.specs.Prelude.{IfOk, IfSome, IsTrue, MatchOption, OnOk, is_some, length};
ghost use Rattle.mfotl_model.specs.Satisfaction.{Valuation, since, time_at, truth_at};
ghost use Rattle.mfotl_model.specs.Tables.{all_among, has, valuation};
ghost use Rattle.relations.specs.Pushed.{left_holds};
ghost use Rattle.eval_since.specs.SinceView.{Advances, Follows, due};

use crate::since::SinceState;
use mfotl_model::Row;
use relations::{Table, first_pushed, part_of};
use std::alloc::{AllocError, Global};

impl SinceState {
    /// Takes the left operand's next table, which of a negated operand is the operand's own.
    pub fn push_left(&mut self, table: Table) -> Result<(), AllocError>
        requires columns { table.columns ≡ self.old.window.left }
        ensures pushed { OnOk result
            (self.new ≡ record self.old { lefts = self.old.lefts ++ table ∷ [] }) }
        ensures follows { OnOk result ((t : List ℕ) (a b : List Bool) (v : Valuation) →
            Follows self.old t a b v →
            left_holds self.old.negated table v
            ≡ truth_at a (self.old.pulled + length self.old.lefts) →
            Follows self.new t a b v) }
    {
        self.lefts.push_back(table)?;
        Ok(())
    }

    /// Takes the right operand's next table.
    pub fn push_right(&mut self, table: Table) -> Result<(), AllocError>
        requires columns { table.columns ≡ self.old.window.right }
        ensures pushed { OnOk result
            (self.new ≡ record self.old { rights = self.old.rights ++ table ∷ [] }) }
        ensures follows { OnOk result ((t : List ℕ) (a b : List Bool) (v : Valuation) →
            Follows self.old t a b v →
            has table v ≡ truth_at b (self.old.pulled + length self.old.rights) →
            Follows self.new t a b v) }
    {
        self.rights.push_back(table)?;
        Ok(())
    }

    /// Takes the next position's time.
    pub fn push_time(&mut self, ts: u64) -> Result<(), AllocError>
        requires rises { self.old.newest ≤ ts }
        requires few { self.old.pulled + length self.old.times < 2 ^ 63 }
        ensures pushed { OnOk result
            (self.new ≡ record self.old { newest = ts; times = self.old.times ++ ts ∷ [] }) }
        ensures follows { OnOk result ((t : List ℕ) (a b : List Bool) (v : Valuation) →
            Follows self.old t a b v →
            ts ≡ time_at t (self.old.pulled + length self.old.times) →
            Follows self.new t a b v) }
    {
        self.times.push_back(ts)?;
        self.newest = ts;
        Ok(())
    }

    /// Whether the next position can be pulled.
    pub fn is_due(&self) -> bool
        ensures { result ≡ due self.now }
    {
        !self.times.is_empty() && !self.lefts.is_empty() && !self.rights.is_empty()
    }

    /// Pulls one position, without its table.
    pub fn advance(&mut self, alloc: Global) -> Result<(), AllocError>
        requires due { IsTrue (due self.old) }
        ensures advances { OnOk result (Advances self.old self.new) }
        ensures follows { OnOk result ((t : List ℕ) (a b : List Bool) (v : Valuation) →
            Follows self.old t a b v → Follows self.new t a b v) }
    {
        let Some(now) = self.times.pop_front() else {
            unreachable!();
        };
        let Some(left) = self.lefts.pop_front() else {
            unreachable!();
        };
        let Some(right) = self.rights.pop_front() else {
            unreachable!();
        };
        let negated = self.negated;
        self.window.step(alloc, negated, &left, right, now)?;
        self.pulled += 1;
        Ok(())
    }

    /// The table of the position that was pulled last.
    pub fn table(&self, alloc: Global) -> Result<Table, AllocError>
        ensures columns { IfOk result (λ table. table.columns ≡ self.now.window.right) }
        ensures rows { IfOk result (λ table. (t : List ℕ) (a b : List Bool) (v : Valuation) →
            Follows self.now t a b v → 0 < self.now.pulled →
            has table v ≡ since self.now.window.interval t a b (self.now.pulled - 1)) }
    {
        let table = self.window.table(alloc)?;
        Ok(table)
    }

    /// Of the table of the position that was pulled last the rows whose part at the columns of `keys` is
    /// one of its rows. No other row is copied.
    pub fn table_of(&self, alloc: Global, keys: &Table) -> Result<Table, AllocError>
        requires inside { IsTrue (all_among keys.now.columns self.now.window.right) }
        ensures columns { IfOk result (λ table. table.columns ≡ self.now.window.right) }
        ensures rows { IfOk result (λ table. (t : List ℕ) (a b : List Bool) (v : Valuation) →
            Follows self.now t a b v → 0 < self.now.pulled →
            has table v ≡ (since self.now.window.interval t a b (self.now.pulled - 1)
            && has keys.now v)) }
    {
        let table = self.window.table_of(alloc, keys)?;
        Ok(table)
    }

    /// The table of the next position, `None` while it is not due.
    pub fn pull(&mut self, alloc: Global) -> Result<Option<Table>, AllocError>
        ensures due { IfOk result (λ answer. is_some answer ≡ due self.old) }
        ensures state { IfOk result (λ answer.
            MatchOption answer (self.new ≡ self.old) (λ _. Advances self.old self.new)) }
        ensures follows { OnOk result ((t : List ℕ) (a b : List Bool) (v : Valuation) →
            Follows self.old t a b v → Follows self.new t a b v) }
        ensures columns { IfOk result (λ answer. IfSome answer (λ table.
            table.columns ≡ self.old.window.right)) }
        ensures rows { IfOk result (λ answer. IfSome answer (λ table.
            (t : List ℕ) (a b : List Bool) (v : Valuation) → Follows self.old t a b v →
            has table v ≡ since self.old.window.interval t a b self.old.pulled)) }
    {
        if !self.is_due() {
            return Ok(None);
        }
        self.advance(alloc)?;
        Ok(Some(self.table(alloc)?))
    }

    /// Whether the next position's table has the valuation that a row gives to its columns, without
    /// making the table. The columns are any, the right operand's among them.
    pub fn holds(&self, alloc: Global, columns: &[u32], row: &Row) -> Result<bool, AllocError>
        requires due { IsTrue (due self.now) }
        ensures { IfOk result (λ yes. (t : List ℕ) (a b : List Bool) →
            Follows self.now t a b (valuation columns.now row.now) →
            yes ≡ since self.now.window.interval t a b self.now.pulled) }
    {
        let now = first_pushed(&self.times);
        let left = first_pushed(&self.lefts);
        let right = first_pushed(&self.rights);
        let own = part_of(alloc, columns, self.window.right(), row.values())?;
        self.window
            .is_next(alloc, self.negated, left, right, &own, *now)
    }
}
