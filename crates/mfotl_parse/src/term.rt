//! Variables and constants, as they are met in the text.
ghost use Rattle.std.specs.Prelude.{◌≡◌, IfOk, IfSome};
ghost use Rattle.mfotl_parse.specs.SymbolTable.{number_of, term_of};

use crate::limits::MAX_FREE;
use mfotl_model::{Term, Value};
use std::alloc::AllocError;

/// The variable that a name stands for at a place: a free one by its order of first occurrence, a
/// quantified one by the order of its quantifier among all.
#[derive(Clone, Copy)]
pub enum Variable {
    Free(u32),
    Bound(u32),
}

#[derive(Drop)]
pub enum Operand {
    Variable(Variable),
    Constant(Value),
}

/// One side of a comparison, and the offset at which it stands.
#[derive(Drop)]
pub struct Side {
    pub at: u64,
    pub operand: Operand,
}

/// A comparison of two variables: the offset of its sign.
#[derive(Clone, Copy)]
pub struct Pair {
    pub at: u64,
    pub left: Variable,
    pub right: Variable,
}

fn number_of(variable: Variable) -> Option<u32>
    ensures { IfSome result (λ number. number ≡ number_of variable) }
{
    match variable {
        Variable::Free(place) => Some(place),
        Variable::Bound(place) => place.checked_add(MAX_FREE),
    }
}

/// The term of an operand.
pub fn term_of(operand: Operand) -> Result<Term, AllocError>
    ensures { IfOk result (λ term. term ≡ term_of operand) }
{
    match operand {
        Operand::Variable(variable) => match number_of(variable) {
            Some(number) => Ok(Term::Var(number)),
            None => Err(AllocError),
        },
        Operand::Constant(value) => Ok(Term::Const(value)),
    }
}
