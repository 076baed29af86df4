//! Terms, and the formulas that hold or fail at one time-point alone.
ghost use Rattle.std.specs.Prelude.{◌≡◌, IfOk};
ghost use Rattle.mfotl_model.specs.Satisfaction.{same_sort};

use crate::value::Value;
use std::alloc::{AllocError, Global};
use std::cmp::Ordering;
use std::marker::Model;

/// A variable, by its number, or a constant.
#[derive(Drop)]
pub enum Term {
    Var(u32),
    Const(Value),
}

impl Term {
    pub fn copy(&self, alloc: Global) -> Result<Self, AllocError>
        ensures { IfOk result (λ term. term ≡ self.now) }
    {
        match self {
            Term::Var(number) => Ok(Term::Var(*number)),
            Term::Const(value) => Ok(Term::Const(value.copy(alloc)?)),
        }
    }
}

/// The arguments of an atom, in order.
#[derive(Drop)]
pub struct Terms {
    items: Vec<Term>,
}

impl Model for Terms {
    ghost use Rattle.std.specs.Prelude.{List};
    ghost use Rattle.mfotl_model.specs.declared.term.Term.{Term};

    ghost Value = { List Term };

    ghost view = { λ t. t.items.items };
}

impl Terms {
    pub fn new(terms: Vec<Term>) -> Self
        ensures { result ≡ terms.items }
    {
        Terms { items: terms }
    }

    pub fn as_slice(&self) -> &[Term]
        ensures { result.now ≡ self.now }
    {
        self.items.as_slice()
    }

    pub fn copy(&self, alloc: Global) -> Result<Self, AllocError>
        ensures { IfOk result (λ terms. terms ≡ self.now) }
    {
        let mut items = Vec::with_capacity(alloc, self.items.len())?;
        for term in self.as_slice() {
            items.push(term.copy(alloc)?)?;
        }
        Ok(Terms { items })
    }
}

/// A predicate, by its number, at arguments.
#[derive(Drop)]
pub struct Atom {
    pub pred: u32,
    pub args: Terms,
}

impl Atom {
    pub fn copy(&self, alloc: Global) -> Result<Self, AllocError>
        ensures { IfOk result (λ atom. atom ≡ self.now) }
    {
        Ok(Atom {
            pred: self.pred,
            args: self.args.copy(alloc)?,
        })
    }
}

/// How two values compare.
#[derive(Clone, Copy, Debug, PartialEq, Eq)]
pub enum Sign {
    Equal,
    Less,
    LessEqual,
    Greater,
    GreaterEqual,
}

impl Sign {
    ghost use Rattle.mfotl_model.specs.Satisfaction.{compares, meets_sign};

    /// Whether two values compare so. Values of different sorts do by no sign.
    pub fn compares(self, left: &Value, right: &Value) -> bool
        ensures { result ≡ compares self left.now right.now }
    {
        same_sort(left, right) && self.meets(left.cmp(right))
    }

    fn meets(self, order: Ordering) -> bool
        ensures { result ≡ meets_sign self order }
    {
        match self {
            Sign::Equal => order.is_eq(),
            Sign::Less => order.is_lt(),
            Sign::LessEqual => order.is_le(),
            Sign::Greater => order.is_gt(),
            Sign::GreaterEqual => order.is_ge(),
        }
    }
}

fn same_sort(left: &Value, right: &Value) -> bool
    ensures { result ≡ same_sort left.now right.now }
{
    match (left, right) {
        (Value::Int(_), Value::Int(_)) | (Value::Text(_), Value::Text(_)) => true,
        _ => false,
    }
}

/// A comparison of two terms.
#[derive(Drop)]
pub struct Comparison {
    pub sign: Sign,
    pub left: Term,
    pub right: Term,
}

impl Comparison {
    pub fn copy(&self, alloc: Global) -> Result<Self, AllocError>
        ensures { IfOk result (λ comparison. comparison ≡ self.now) }
    {
        Ok(Comparison {
            sign: self.sign,
            left: self.left.copy(alloc)?,
            right: self.right.copy(alloc)?,
        })
    }
}
