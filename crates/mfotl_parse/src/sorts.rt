//! The sorts that variables are given, and where they clash.
ghost use Rattle.std.specs.Prelude.{◌≡◌, OnOk, slice_get, slice_set, Some, find};
ghost use Rattle.std.specs.Option.{option_copied};
ghost use Rattle.mfotl_parse.specs.SymbolTable as sorting;
ghost use Rattle.mfotl_parse.specs.Views.{names_met};
ghost use Rattle.mfotl_parse.specs.WellSorted.{sort_of_constant, same_sort};

use crate::symbol_table::SymbolTable;
use crate::term::{Operand, Pair, Side, Variable};
use mfotl_model::{Sort, Value};
use std::alloc::AllocError;

impl SymbolTable {
    fn sort_of(&self, variable: Variable) -> Option<Sort>
        ensures { result ≡ sorting.sort_of variable (names_met self.now) }
    {
        match variable {
            Variable::Free(place) => given(&self.free_sorts, place),
            Variable::Bound(place) => given(&self.bound_sorts, place),
        }
    }

    fn give_sort(&mut self, variable: Variable, sort: Sort)
        ensures { names_met self.new ≡ sorting.with_sort variable sort (names_met self.old) }
    {
        match variable {
            Variable::Free(place) => set(&mut self.free_sorts, place, sort),
            Variable::Bound(place) => set(&mut self.bound_sorts, place, sort),
        }
    }

    fn clash_at(&mut self, at: u64)
        ensures { names_met self.new ≡ sorting.clashed at (names_met self.old) }
    {
        if self.clash.is_none() {
            self.clash = Some(at);
        }
    }

    fn agree(&mut self, before: Sort, at: u64, sort: Sort)
        ensures { names_met self.new ≡ sorting.agreed before at sort (names_met self.old) }
    {
        if !same_sort(before, sort) {
            self.clash_at(at);
        }
    }

    fn occur(&mut self, variable: Variable, at: u64, sort: Sort)
        ensures { names_met self.new ≡ sorting.require_sort variable at sort (names_met self.old) }
    {
        match self.sort_of(variable) {
            None => self.give_sort(variable, sort),
            Some(before) => self.agree(before, at, sort),
        }
    }

    /// A term at the offset, where this sort is due.
    pub fn place(&mut self, operand: &Operand, at: u64, sort: Sort)
        ensures { names_met self.new ≡ sorting.constrain_term operand.now at sort (names_met self.old) }
    {
        match operand {
            Operand::Variable(variable) => self.occur(*variable, at, sort),
            Operand::Constant(value) => self.agree(sort_of_value(value), at, sort),
        }
    }

    /// The sides of a comparison whose sign stands at the offset.
    pub fn compare(&mut self, left: &Side, at: u64, right: &Side) -> Result<(), AllocError>
        ensures { OnOk result (names_met self.new
            ≡ sorting.with_comparison left.now.operand left.now.at at right.now.operand right.now.at
            (names_met self.old)) }
    {
        match (&left.operand, &right.operand) {
            (Operand::Variable(left), Operand::Variable(right)) => {
                self.pairs.push(Pair {
                    at,
                    left: *left,
                    right: *right,
                })?;
            }
            (Operand::Variable(variable), Operand::Constant(value)) => {
                self.occur(*variable, left.at, sort_of_value(value));
            }
            (Operand::Constant(value), Operand::Variable(variable)) => {
                self.occur(*variable, right.at, sort_of_value(value));
            }
            (Operand::Constant(left), Operand::Constant(right)) => {
                self.agree(sort_of_value(left), at, sort_of_value(right));
            }
        }
        Ok(())
    }

    /// The first comparison of two variables that have different sorts.
    pub fn uneven_pair(&self) -> Option<&Pair>
        ensures { option_copied result ≡ sorting.uneven_pair (names_met self.now) }
    {
        self.pairs.iter().find(|pair| differ(self.sort_of(pair.left), self.sort_of(pair.right)))
    }
}

fn sort_of_value(value: &Value) -> Sort
    ensures { result ≡ sort_of_constant value.now }
{
    match value {
        Value::Int(_) => Sort::Int,
        Value::Text(_) => Sort::Text,
    }
}

fn same_sort(left: Sort, right: Sort) -> bool
    ensures { result ≡ same_sort left right }
{
    match (left, right) {
        (Sort::Int, Sort::Int) => true,
        (Sort::Int, Sort::Text) => false,
        (Sort::Text, Sort::Int) => false,
        (Sort::Text, Sort::Text) => true,
    }
}

fn differ(left: Option<Sort>, right: Option<Sort>) -> bool
    ensures { result ≡ sorting.differ left right }
{
    match (left, right) {
        (Some(left), Some(right)) => !same_sort(left, right),
        (Some(_), None) => false,
        (None, _) => false,
    }
}

fn given(sorts: &[Option<Sort>], place: u32) -> Option<Sort>
    ensures { result ≡ sorting.given_at (slice_get sorts.now place) }
{
    match sorts.get(place as usize) {
        Some(sort) => *sort,
        None => None,
    }
}

fn set(sorts: &mut Vec<Option<Sort>>, place: u32, sort: Sort)
    ensures { sorts.new.items ≡ slice_set sorts.old.items place (Some sort) }
{
    let place = place as usize;
    if place < sorts.len() {
        sorts[place] = Some(sort);
    }
}
