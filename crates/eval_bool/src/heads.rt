//! The tables of the next position, taken from the children.
ghost use Rattle.std.specs.Prelude.{◌≡◌, ◌∷◌, ◌++◌, [], ℕ, IfOk, OnOk, cond, false, map, true};
ghost use Rattle.eval_bool.specs.Heads.{FirstsOver, advanced_to, heads_of};
ghost use Rattle.eval_bool.specs.JoinView.{child_advanced};

use crate::child::Child;
use relations::Table;
use std::alloc::{AllocError, Global};

/// The tables of one position: those to be joined, and those of the negated children.
#[derive(Drop)]
pub(crate) struct Heads {
    pub(crate) plain: Vec<Table>,
    pub(crate) negated: Vec<Table>,
}

impl Heads {
    fn push(&mut self, negated: bool, table: Table) -> Result<(), AllocError>
        ensures plain { OnOk result
            (self.new.plain.items ≡ self.old.plain.items ++ cond negated [] (table ∷ [])) }
        ensures negated { OnOk result
            (self.new.negated.items ≡ self.old.negated.items ++ cond negated (table ∷ []) []) }
    {
        if negated {
            self.negated.push(table)?;
        } else {
            self.plain.push(table)?;
        }
        Ok(())
    }
}

fn move_head(child: &mut Child, heads: &mut Heads) -> Result<(), AllocError>
    ensures advanced { child.new ≡ child_advanced child.old }
    ensures plain { OnOk result (heads.new.plain.items
        ≡ heads.old.plain.items ++ heads_of false (child.old ∷ [])) }
    ensures negated { OnOk result (heads.new.negated.items
        ≡ heads.old.negated.items ++ heads_of true (child.old ∷ [])) }
    ensures over { FirstsOver (child.old ∷ []) }
{
    let negated = child.is_negated();
    match child.pop() {
        Some(table) => heads.push(negated, table),
        None => Ok(()),
    }
}

/// Takes the first table of each child. Without memory it may have taken those of the first ones alone.
pub(crate) fn take_heads(alloc: Global, children: &mut [Child]) -> Result<Heads, AllocError>
    ensures some { (n : ℕ) × (children.new ≡ advanced_to n children.old) }
    ensures all { OnOk result (children.new ≡ map child_advanced children.old) }
    ensures plain { IfOk result (λ heads. heads.plain.items ≡ heads_of false children.old) }
    ensures negated { IfOk result (λ heads. heads.negated.items ≡ heads_of true children.old) }
    ensures over { OnOk result (FirstsOver children.old) }
{
    let mut heads = Heads {
        plain: Vec::new(alloc),
        negated: Vec::new(alloc),
    };
    for child in children.iter_mut() {
        move_head(child, &mut heads)?;
    }
    Ok(heads)
}
