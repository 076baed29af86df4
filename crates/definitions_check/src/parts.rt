//! What stands in formulas beside operators: atoms, comparisons, variables and intervals.
ghost use Rattle.std.specs.Prelude.{◌≡◌, ◌∷◌, ◌++◌, IfOk, map, length};
ghost use Rattle.std.specs.Fmt.{decimal};
ghost use Rattle.definitions_check.specs.Values.{spelled_term};
ghost use Rattle.definitions_check.specs.Spelling.{spelled_atom, spelled_comparison};
ghost use Rattle.definitions_check.specs.Spelling.{spelled_interval, upper_word};

use crate::fault::CaseFault;
use crate::operator::sign_of;
use crate::values::term;
use crate::words::{Words, natural, small_natural};
use mfotl_model::{Atom, Bound, Comparison, Interval, Name, Term, Terms};
use std::alloc::Global;

/// An atom, whose words come next.
pub fn atom(alloc: Global, words: &mut Words<'_>) -> Result<Atom, CaseFault>
    ensures { IfOk result (λ atom. words.old ≡ spelled_atom atom words.new) }
{
    let pred = small_natural(alloc, words.next()?)?;
    let count = natural(alloc, words.next()?)?;
    Ok(Atom {
        pred,
        args: Terms::new(terms(alloc, words, count)?),
    })
}

// So many terms.
fn terms(alloc: Global, words: &mut Words<'_>, count: u64) -> Result<Vec<Term>, CaseFault>
    ensures words { IfOk result (λ terms. words.old ≡ map spelled_term terms.items ++ words.new) }
    ensures count { IfOk result (λ terms. length terms.items ≡ count) }
{
    let mut terms = Vec::new(alloc);
    for _turn in 0..count {
        terms.push(term(alloc, words.next()?)?)?;
    }
    Ok(terms)
}

/// A comparison, whose words come next.
pub fn comparison(alloc: Global, words: &mut Words<'_>) -> Result<Comparison, CaseFault>
    ensures { IfOk result (λ comparison. words.old ≡ spelled_comparison comparison words.new) }
{
    let sign = sign_of(words.next()?)?;
    let (left, right) = two_terms(alloc, words)?;
    Ok(Comparison { sign, left, right })
}

// The sides of a comparison.
fn two_terms(alloc: Global, words: &mut Words<'_>) -> Result<(Term, Term), CaseFault>
    ensures { IfOk result (λ both. words.old ≡ spelled_term both.0 ∷ spelled_term both.1 ∷ words.new) }
{
    let left = term(alloc, words.next()?)?;
    let word = words.next()?;
    match term(alloc, word) {
        Ok(right) => Ok((left, right)),
        Err(fault) => Err(fault),
    }
}

/// The variable of a quantifier, which has no name but its number.
pub fn bound(alloc: Global, words: &mut Words<'_>) -> Result<Bound, CaseFault>
    ensures { IfOk result (λ bound. words.old ≡ decimal bound.number ∷ words.new) }
{
    let word = words.next()?;
    Ok(Bound {
        number: small_natural(alloc, word)?,
        name: Name::from_slice(alloc, word)?,
    })
}

/// The interval of a temporal operator, whose words come next.
pub fn interval(alloc: Global, words: &mut Words<'_>) -> Result<Interval, CaseFault>
    ensures { IfOk result (λ interval. words.old ≡ spelled_interval interval words.new) }
{
    let lo = natural(alloc, words.next()?)?;
    let hi = upper_end(alloc, words.next()?)?;
    match Interval::new(lo, hi) {
        Some(interval) => Ok(interval),
        None => Err(CaseFault::EmptyInterval),
    }
}

// A number, or `*` for no end.
fn upper_end(alloc: Global, word: &[u8]) -> Result<Option<u64>, CaseFault>
    ensures { IfOk result (λ hi. upper_word hi ≡ word.now) }
{
    if word == b"*".as_slice() {
        return Ok(None);
    }
    Ok(Some(natural(alloc, word)?))
}
