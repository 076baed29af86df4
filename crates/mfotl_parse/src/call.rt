//! An atom while its arguments are read.
ghost use Rattle.std.specs.Prelude.{◌≡◌, ◌-◌, IfOk, codes};
ghost use Rattle.mfotl_model.specs.Formulas.{form};
ghost use Rattle.mfotl_parse.specs.Arguments as calls;
ghost use Rattle.mfotl_parse.specs.SortsDue.{due_sort, is_empty};
ghost use Rattle.mfotl_parse.specs.Views.{call_view};

use crate::class::Quantifier;
use crate::formulas::boxed;
use mfotl_model::{Atom, Formula, Name, Sort, Term, Terms};
use std::alloc::{AllocError, Global};

/// An atom up to its last argument.
#[derive(Drop)]
pub struct Call<'a> {
    pub pred: u32,
    /// The sorts of the arguments to come.
    pub rest: &'a [Sort],
    pub args: Vec<Term>,
    /// How many variables were bound before it.
    pub bound: u32,
}

impl<'a> Call<'a> {
    /// The sort of the argument that is due; `int` where none is.
    pub fn due(&self) -> Sort
        ensures { result ≡ due_sort (call_view self.now).rest }
    {
        match self.rest {
            [] => Sort::Int,
            [sort, ..] => *sort,
        }
    }

    pub fn is_full(&self) -> bool
        ensures { result ≡ is_empty (call_view self.now).rest }
    {
        self.rest.is_empty()
    }

    /// With one argument more.
    pub fn with(self, term: Term) -> Result<Call<'a>, AllocError>
        ensures { IfOk result (λ call. call_view call
            ≡ calls.with_argument (call_view self.entry) term) }
    {
        let Call {
            pred,
            rest,
            mut args,
            bound,
        } = self;
        args.push(term)?;
        let rest = match rest {
            [] => rest,
            [_, rest @ ..] => rest,
        };
        Ok(Call {
            pred,
            rest,
            args,
            bound,
        })
    }

    /// The atom, with EXISTS for each `_`.
    pub fn close(self, alloc: Global, bound: u32) -> Result<Box<Formula>, AllocError>
        ensures { IfOk result (λ formula. form formula.value
            ≡ calls.atom_of (call_view self.entry) bound) }
    {
        let Call {
            pred,
            rest: _,
            args,
            bound: first,
        } = self;
        let args = Terms::new(args);
        let atom = boxed(alloc, Formula::Atom(Atom { pred, args }))?;
        blanks(alloc, first, bound, atom)
    }
}

/// EXISTS around a formula for the variables from `first` up to `end`, the first outermost.
fn blanks(
    alloc: Global,
    first: u32,
    end: u32,
    inner: Box<Formula>,
) -> Result<Box<Formula>, AllocError>
    ensures { IfOk result (λ formula. form formula.value
        ≡ calls.blanks (end - first) first (form inner.value)) }
{
    let mut whole = inner;
    let mut place = end;
    while first < place {
        place -= 1;
        whole = blank(alloc, place, whole)?;
    }
    Ok(whole)
}

/// EXISTS around a formula for the variable of a `_`.
fn blank(alloc: Global, place: u32, inner: Box<Formula>) -> Result<Box<Formula>, AllocError>
    ensures { IfOk result (λ formula. form formula.value ≡ calls.blank place (form inner.value)) }
{
    let name = blank_name(alloc)?;
    Quantifier::Exists.over(alloc, place, name, inner)
}

fn blank_name(alloc: Global) -> Result<Name, AllocError>
    ensures { IfOk result (λ name. name ≡ codes "_") }
{
    Ok(Name::from_slice(alloc, b"_")?)
}
