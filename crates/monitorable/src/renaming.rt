//! Other numbers for bound variables.
ghost use Rattle.std.specs.Prelude.{◌≡◌, map, IfOk};
ghost use Rattle.monitorable.specs.Renaming.{renamed_atom, renamed_comparison, renamed_term};
ghost use Rattle.monitorable.specs.RenamingScope.{numbers_of};

use mfotl_model::{Atom, Comparison, Term, Terms};
use std::alloc::{AllocError, Global};

/// The new numbers of the variables where a core stands: the innermost quantifier's first.
#[derive(Clone, Copy)]
pub enum Renaming<'a> {
    Same,
    To(u32, u32, &'a Renaming<'a>),
}

impl Renaming<'_> {
    fn number(&self, variable: u32) -> u32
        ensures { result ≡ numbers_of self.now variable }
    {
        match self {
            Renaming::Same => variable,
            Renaming::To(old, new, _) if *old == variable => *new,
            Renaming::To(_, _, outer) => outer.number(variable),
        }
    }

    fn term(&self, alloc: Global, term: &Term) -> Result<Term, AllocError>
        ensures { IfOk result (λ term'. term' ≡ renamed_term (numbers_of self.now) term.now) }
    {
        match term {
            Term::Var(variable) => Ok(Term::Var(self.number(*variable))),
            Term::Const(value) => Ok(Term::Const(value.copy(alloc)?)),
        }
    }

    fn terms(&self, alloc: Global, terms: &[Term]) -> Result<Vec<Term>, AllocError>
        ensures { IfOk result (λ terms'. terms'.items ≡ map (renamed_term (numbers_of self.now)) terms.now) }
    {
        let mut renamed = Vec::with_capacity(alloc, terms.len())?;
        for term in terms {
            renamed.push(self.term(alloc, term)?)?;
        }
        Ok(renamed)
    }

    /// The atom in new numbers.
    pub fn atom(&self, alloc: Global, atom: &Atom) -> Result<Atom, AllocError>
        ensures { IfOk result (λ atom'. atom' ≡ renamed_atom (numbers_of self.now) atom.now) }
    {
        Ok(Atom {
            pred: atom.pred,
            args: Terms::new(self.terms(alloc, atom.args.as_slice())?),
        })
    }

    /// The comparison in new numbers.
    pub fn comparison(
        &self,
        alloc: Global,
        comparison: &Comparison,
    ) -> Result<Comparison, AllocError>
        ensures { IfOk result (λ renamed. renamed ≡ renamed_comparison (numbers_of self.now) comparison.now) }
    {
        Ok(Comparison {
            sign: comparison.sign,
            left: self.term(alloc, &comparison.left)?,
            right: self.term(alloc, &comparison.right)?,
        })
    }
}
