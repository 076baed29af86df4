//! OR over the tables of its operands, which are pushed position by position.
ghost use Rattle.std.specs.Prelude.{◌≡◌, ◌+◌, ◌<◌, ◌^◌, ◌||◌, ◌∷◌, ◌++◌, [], IfOk, IfSome, IsTrue};
ghost use Rattle.std.specs.Prelude.{MatchOption, OnOk, is_some, length};
ghost use Rattle.mfotl_model.specs.Satisfaction.{Valuation};
ghost use Rattle.mfotl_model.specs.Tables.{all_apart, has};
ghost use Rattle.eval_bool.specs.BoolData.{OrRule, or_of};
ghost use Rattle.eval_bool.specs.Firsts.{first_has};
ghost use Rattle.eval_bool.specs.OrView.{operand_columns, operand_tables, or_advanced, or_begun, or_due};
ghost use Rattle.eval_bool.specs.OrView.{or_pushed, same_columns};

use crate::admission::fits;
use crate::recalled::OrData;
use crate::reorder::reordered;
use relations::{Table, copied_tables};
use std::alloc::{AllocError, Global};
use std::collections::VecDeque;
use std::marker::Model;

/// The state of OR: what was pushed for later positions. The n-th table pushed for an operand is that
/// of position n. The operands are numbered 0 and 1.
#[derive(Drop)]
pub struct OrState {
    left: Vec<u32>,
    right: Vec<u32>,
    pulled: u64,
    lefts: VecDeque<Table>,
    rights: VecDeque<Table>,
}

impl Model for OrState {
    ghost use Rattle.std.specs.Prelude.{◌≡◌, ◌≤◌, ◌+◌, ◌^◌, length, true};
    ghost use Rattle.mfotl_model.specs.Tables.{all_apart};
    ghost use Rattle.relations.specs.Pushed.{AreOver};
    ghost use Rattle.eval_bool.specs.OrView.{OrOf, same_columns};

    ghost Value = { OrOf };

    ghost view = { λ s. record {
      left = s.left.items;
      right = s.right.items;
      pulled = s.pulled;
      lefts = s.lefts.items;
      rights = s.rights.items;
    } };

    ghost invariant = { λ s. record {
      apart : all_apart s.left.items ≡ true;
      same : same_columns s.left.items s.right.items ≡ true;
      few : s.pulled + length s.lefts.items ≤ 2 ^ 63;
      over_left : AreOver s.left.items s.lefts.items;
      over_right : AreOver s.right.items s.rights.items;
    } };
}

// the rows of either table, over the first one's columns
fn either(alloc: Global, left: Table, right: Table) -> Result<Table, AllocError>
    requires same { IsTrue (same_columns left.columns right.columns) }
    ensures columns { IfOk result (λ table. table.columns ≡ left.columns) }
    ensures has { IfOk result (λ table. (v : Valuation) → has table v ≡ (has left v || has right v)) }
{
    let right = reordered(alloc, right, left.columns())?;
    let table = left.united(right)?;
    Ok(table)
}

impl OrState {
    /// The state before the first position, for operands over the same columns, in whatever order.
    pub fn new(alloc: Global, left: &[u32], right: &[u32]) -> Result<Self, AllocError>
        requires apart { IsTrue (all_apart left.now) }
        requires same { IsTrue (same_columns left.now right.now) }
        ensures state { IfOk result (λ state. state ≡ or_begun left.now right.now) }
    {
        let left = Vec::from_slice(alloc, left)?;
        let right = Vec::from_slice(alloc, right)?;
        Ok(OrState {
            left,
            right,
            pulled: 0,
            lefts: VecDeque::new(alloc),
            rights: VecDeque::new(alloc),
        })
    }

    /// The state of which `kept` is the data.
    pub fn resume(
        alloc: Global,
        left: &[u32],
        right: &[u32],
        kept: OrData,
    ) -> Result<Self, AllocError>
        requires apart { IsTrue (all_apart left.now) }
        requires same { IsTrue (same_columns left.now right.now) }
        requires rule { OrRule left.now right.now kept }
        ensures state { IfOk result (λ state. state ≡ or_of left.now right.now kept) }
    {
        let OrData {
            pulled,
            lefts,
            rights,
        } = kept;
        let left = Vec::from_slice(alloc, left)?;
        let right = Vec::from_slice(alloc, right)?;
        Ok(OrState {
            left,
            right,
            pulled,
            lefts: VecDeque::from_vec(lefts),
            rights: VecDeque::from_vec(rights),
        })
    }

    /// The state of the same operands of which `kept` is the data. It takes no memory.
    pub fn resumed(self, kept: OrData) -> Self
        requires rule { OrRule self.left self.right kept }
        ensures { result ≡ or_of self.left self.right kept }
    {
        OrState {
            left: self.left,
            right: self.right,
            pulled: kept.pulled,
            lefts: VecDeque::from_vec(kept.lefts),
            rights: VecDeque::from_vec(kept.rights),
        }
    }

    /// What the state keeps, as plain data.
    pub fn state(&self, alloc: Global) -> Result<OrData, AllocError>
        ensures same { IfOk result (λ kept. or_of self.now.left self.now.right kept ≡ self.now) }
        ensures rule { IfOk result (λ kept. OrRule self.now.left self.now.right kept) }
    {
        Ok(OrData {
            pulled: self.pulled,
            lefts: copied_tables(alloc, &self.lefts)?,
            rights: copied_tables(alloc, &self.rights)?,
        })
    }

    fn push_left(&mut self, table: Table) -> Result<(), AllocError>
        requires columns { table.columns ≡ self.old.left }
        requires few { self.old.pulled + length self.old.lefts < 2 ^ 63 }
        ensures pushed { OnOk result
            (self.new ≡ record self.old { lefts = self.old.lefts ++ table ∷ [] }) }
    {
        self.lefts.push_back(table)?;
        Ok(())
    }

    fn push_right(&mut self, table: Table) -> Result<(), AllocError>
        requires columns { table.columns ≡ self.old.right }
        ensures pushed { OnOk result
            (self.new ≡ record self.old { rights = self.old.rights ++ table ∷ [] }) }
    {
        self.rights.push_back(table)?;
        Ok(())
    }

    /// Whether the table meets the conditions of `push`.
    pub fn takes(&self, child: u32, table: &Table) -> bool
        ensures child { IsTrue result → child < 2 }
        ensures columns { IsTrue result → table.now.columns ≡ operand_columns self.now child }
        ensures few { IsTrue result →
            self.now.pulled + length (operand_tables self.now child) < 2 ^ 63 }
        ensures enough { child < 2 → table.now.columns ≡ operand_columns self.now child →
            self.now.pulled + length (operand_tables self.now child) < 2 ^ 63 → IsTrue result }
    {
        if child == 0 {
            return fits(self.left.as_slice(), self.pulled, self.lefts.len(), table);
        }
        child == 1 && fits(self.right.as_slice(), self.pulled, self.rights.len(), table)
    }

    /// Takes an operand's next table, over that operand's columns.
    pub fn push(&mut self, child: u32, table: Table) -> Result<(), AllocError>
        requires child { child < 2 }
        requires columns { table.columns ≡ operand_columns self.old child }
        requires few { self.old.pulled + length (operand_tables self.old child) < 2 ^ 63 }
        ensures pushed { OnOk result (self.new ≡ or_pushed self.old child table) }
    {
        if child == 0 {
            self.push_left(table)
        } else {
            self.push_right(table)
        }
    }

    /// Whether the next position can be pulled.
    pub fn is_due(&self) -> bool
        ensures { result ≡ or_due self.now }
    {
        !self.lefts.is_empty() && !self.rights.is_empty()
    }

    /// The table of the next position, over the first operand's columns; `None` while it is not due.
    pub fn pull(&mut self, alloc: Global) -> Result<Option<Table>, AllocError>
        ensures due { IfOk result (λ answer. is_some answer ≡ or_due self.old) }
        ensures state { IfOk result (λ answer.
            MatchOption answer (self.new ≡ self.old) (λ _. self.new ≡ or_advanced self.old)) }
        ensures columns { IfOk result (λ answer. IfSome answer (λ table.
            table.columns ≡ self.old.left)) }
        ensures rows { IfOk result (λ answer. IfSome answer (λ table.
            (v : Valuation) → has table v ≡ (first_has v self.old.lefts || first_has v self.old.rights))) }
    {
        if !self.is_due() {
            return Ok(None);
        }
        let Some(left) = self.lefts.pop_front() else {
            unreachable!();
        };
        let Some(right) = self.rights.pop_front() else {
            unreachable!();
        };
        self.pulled += 1;
        let table = either(alloc, left, right)?;
        Ok(Some(table))
    }
}
