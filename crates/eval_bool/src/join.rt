//! A conjunction over the tables of its children, which are pushed position by position.
ghost use Rattle.std.specs.Prelude.{◌≡◌, ◌+◌, ◌<◌, ◌^◌, ◌∷◌, ◌++◌, [], IfOk, IfSome, IsTrue, MatchOption};
ghost use Rattle.std.specs.Prelude.{OnOk, is_some, length, map};
ghost use Rattle.mfotl_model.specs.Satisfaction.{Valuation};
ghost use Rattle.mfotl_model.specs.Tables.{all_apart, has};
ghost use Rattle.eval_bool.specs.BoolData.{JoinRule, join_of};
ghost use Rattle.eval_bool.specs.Heads.{AreHeads};
ghost use Rattle.eval_bool.specs.JoinView.{all_children, child_columns, child_pushed, child_tables};
ghost use Rattle.eval_bool.specs.JoinView.{children_of, conjunct_of};
ghost use Rattle.eval_bool.specs.JoinView.{is_guarded, join_advanced, join_begun, join_due, joins, tests_of};

use crate::child::Child;
use crate::combined::combined;
use crate::conjunct::{Conjunct, Parts, Test, conjunct_columns, split};
use crate::heads::{Heads, take_heads};
use crate::recalled::JoinData;
use crate::refill::{copied_all, refilled};
use relations::Table;
use std::alloc::{AllocError, Global};
use std::marker::Model;

/// The state of a conjunction: its conjuncts, and what was pushed for later positions. The n-th table
/// pushed for a child is that of position n. Children are numbered from 0, in the order of the conjuncts.
#[derive(Drop)]
pub struct JoinState {
    columns: Vec<u32>,
    tests: Vec<Test>,
    pulled: u64,
    children: Vec<Child>,
}

impl Model for JoinState {
    ghost use Rattle.eval_bool.specs.IsJoin.{IsJoin};
    ghost use Rattle.eval_bool.specs.JoinView.{JoinOf};

    ghost Value = { JoinOf };

    ghost view = { λ s. record {
      columns = s.columns.items;
      tests = s.tests.items;
      pulled = s.pulled;
      children = s.children.items;
    } };

    ghost invariant = { λ s. IsJoin s.columns.items s.tests.items s.pulled s.children.items };
}

impl JoinState {
    /// The state before the first position. Each column of a negated child and each variable of a test
    /// has to be a column of a child that isn't negated.
    pub fn new(alloc: Global, conjuncts: Vec<Conjunct>) -> Result<Self, AllocError>
        requires apart { IsTrue (all_children all_apart (children_of (map conjunct_of conjuncts.items))) }
        requires guarded { IsTrue (is_guarded (children_of (map conjunct_of conjuncts.items))
            (tests_of (map conjunct_of conjuncts.items))) }
        ensures state { IfOk result (λ state. state ≡ join_begun (map conjunct_of conjuncts.items)) }
    {
        let columns = conjunct_columns(alloc, conjuncts.as_slice())?;
        let Parts { tests, children } = split(alloc, conjuncts)?;
        Ok(JoinState {
            columns,
            tests,
            pulled: 0,
            children,
        })
    }

    /// The state of which `kept` is the data. The conditions on the conjuncts are those of `new`.
    pub fn resume(
        alloc: Global,
        conjuncts: Vec<Conjunct>,
        kept: JoinData,
    ) -> Result<Self, AllocError>
        requires apart { IsTrue (all_children all_apart (children_of (map conjunct_of conjuncts.items))) }
        requires guarded { IsTrue (is_guarded (children_of (map conjunct_of conjuncts.items))
            (tests_of (map conjunct_of conjuncts.items))) }
        requires rule { JoinRule (children_of (map conjunct_of conjuncts.items)) kept }
        ensures state { IfOk result (λ state.
            state ≡ join_of (join_begun (map conjunct_of conjuncts.items)) kept) }
    {
        let columns = conjunct_columns(alloc, conjuncts.as_slice())?;
        let Parts { tests, children } = split(alloc, conjuncts)?;
        let JoinData { pulled, tables } = kept;
        let children = refilled(alloc, children, tables)?;
        Ok(JoinState {
            columns,
            tests,
            pulled,
            children,
        })
    }

    /// The state of the same conjuncts of which `kept` is the data.
    pub fn resumed(self, alloc: Global, kept: JoinData) -> Result<Self, AllocError>
        requires rule { JoinRule self.children kept }
        ensures { IfOk result (λ state. state ≡ join_of self kept) }
    {
        let children = refilled(alloc, self.children, kept.tables)?;
        Ok(JoinState {
            columns: self.columns,
            tests: self.tests,
            pulled: kept.pulled,
            children,
        })
    }

    /// What the state keeps, as plain data.
    pub fn state(&self, alloc: Global) -> Result<JoinData, AllocError>
        ensures same { IfOk result (λ kept. join_of self.now kept ≡ self.now) }
        ensures rule { IfOk result (λ kept. JoinRule self.now.children kept) }
    {
        Ok(JoinData {
            pulled: self.pulled,
            tables: copied_all(alloc, self.children.as_slice())?,
        })
    }

    /// How many children there are.
    pub fn children(&self) -> usize
        ensures { result ≡ length self.now.children }
    {
        self.children.len()
    }

    /// Whether the table meets the conditions of `push`.
    pub fn takes(&self, child: u32, table: &Table) -> bool
        ensures child { IsTrue result → child < length self.now.children }
        ensures columns { IsTrue result →
            table.now.columns ≡ child_columns self.now.children child }
        ensures few { IsTrue result →
            self.now.pulled + length (child_tables self.now.children child) < 2 ^ 63 }
        ensures enough { child < length self.now.children →
            table.now.columns ≡ child_columns self.now.children child →
            self.now.pulled + length (child_tables self.now.children child) < 2 ^ 63 → IsTrue result }
    {
        let child = child as usize;
        child < self.children.len() && self.children[child].takes(self.pulled, table)
    }

    /// Takes a child's next table.
    pub fn push(&mut self, child: u32, table: Table) -> Result<(), AllocError>
        requires child { child < length self.old.children }
        requires columns { table.columns ≡ child_columns self.old.children child }
        requires few { self.old.pulled + length (child_tables self.old.children child) < 2 ^ 63 }
        ensures pushed { OnOk result
            (self.new ≡ record self.old { children = child_pushed self.old.children child table }) }
    {
        self.children[child as usize].push(table)?;
        Ok(())
    }

    /// Whether the next position can be pulled.
    pub fn is_due(&self) -> bool
        ensures { result ≡ join_due self.now }
    {
        self.children.iter().all(|child| child.is_ready())
    }

    // takes the first table of each child
    fn advance(&mut self, alloc: Global) -> Result<Heads, AllocError>
        requires due { IsTrue (join_due self.old) }
        requires few { self.old.children ≡ [] → self.old.pulled < 2 ^ 63 }
        ensures advanced { OnOk result (self.new ≡ join_advanced self.old) }
        ensures heads { IfOk result (λ heads.
            AreHeads self.old heads.plain.items heads.negated.items) }
    {
        let heads = take_heads(alloc, &mut self.children)?;
        self.pulled += 1;
        Ok(heads)
    }

    /// The table of the next position, `None` while it is not due: the rows whose parts pass every
    /// conjunct, over the columns of all conjuncts, each at its first occurrence. Without a child each call
    /// gives a table.
    pub fn pull(&mut self, alloc: Global) -> Result<Option<Table>, AllocError>
        requires few { self.old.children ≡ [] → self.old.pulled < 2 ^ 63 }
        ensures due { IfOk result (λ answer. is_some answer ≡ join_due self.old) }
        ensures state { IfOk result (λ answer.
            MatchOption answer (self.new ≡ self.old) (λ _. self.new ≡ join_advanced self.old)) }
        ensures columns { IfOk result (λ answer. IfSome answer (λ table.
            table.columns ≡ self.old.columns)) }
        ensures rows { IfOk result (λ answer. IfSome answer (λ table.
            (v : Valuation) → has table v ≡ joins self.old v)) }
    {
        if !self.is_due() {
            return Ok(None);
        }
        let heads = self.advance(alloc)?;
        let table = combined(alloc, heads, self.tests.as_slice(), self.columns.as_slice())?;
        Ok(Some(table))
    }
}
