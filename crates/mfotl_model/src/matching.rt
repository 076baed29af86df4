//! An atom against an event: whether it stands for the event, and what its variables read off it.
ghost use Rattle.std.specs.Prelude.{◌≡◌, IfOk, option_map, position};
ghost use Rattle.std.specs.List.{list_all, zip};
ghost use Rattle.mfotl_model.specs.AtomSteps.{give_back, stands_for};
ghost use Rattle.mfotl_model.specs.Matching.{first_value, is_match, is_seen, is_variable};
ghost use Rattle.mfotl_model.specs.Matching.{read_off, row_read};

use crate::event::Event;
use crate::row::Row;
use crate::term::{Atom, Term};
use crate::value::Value;
use std::alloc::{AllocError, Global};

impl Term {
    /// Whether the term is the variable of this number.
    pub(crate) fn is_variable(&self, variable: u32) -> bool
        ensures { result ≡ is_variable variable self.now }
    {
        match self {
            Term::Var(number) => *number == variable,
            Term::Const(_) => false,
        }
    }
}

impl Atom {
    /// Whether the atom stands for the event: each constant for itself, and each variable for one value.
    #[tactic(auto, using(crate::proofs::AtomLemmas::match_by_terms, crate::proofs::AtomLemmas::match_by_pred))]
    pub fn is_match(&self, event: &Event) -> bool
        ensures { result ≡ is_match self.now event.now }
    {
        self.pred == event.pred && give_back(self.args.as_slice(), event.args.values())
    }

    /// What the event has at each of the columns, in their order. A variable that reads nothing off it is 0.
    pub fn row_read(&self, alloc: Global, columns: &[u32], event: &Event) -> Result<Row, AllocError>
        ensures { IfOk result (λ row.
            row ≡ row_read (record { atom = self.now; columns = columns.now }) event.now) }
    {
        let (terms, values) = (self.args.as_slice(), event.args.values());
        let mut row = Row::empty();
        for column in columns {
            row = row.push(alloc, value_read(alloc, terms, values, *column)?)?;
        }
        Ok(row)
    }
}

/// Whether some of the atoms stands for the event.
pub(crate) fn is_seen(atoms: &[Atom], event: &Event) -> bool
    ensures { result ≡ is_seen atoms.now event.now }
{
    atoms.iter().any(|atom| atom.is_match(event))
}

// the first place where the terms have the variable
fn first_place(terms: &[Term], variable: u32) -> Option<usize>
    ensures { result ≡ position (is_variable variable) terms.now }
{
    terms.iter().position(|term| term.is_variable(variable))
}

// the value at this place
#[tactic(auto, unfolding(crate::specs::Matching::first_value))]
fn first_value<'a>(terms: &[Term], values: &'a [Value], variable: u32) -> Option<&'a Value>
    ensures { option_map (λ value. value.now) result ≡ first_value terms.now values.now variable }
{
    match first_place(terms, variable) {
        Some(place) => values.get(place),
        None => None,
    }
}

// the variable's first value, or 0
fn value_read(
    alloc: Global,
    terms: &[Term],
    values: &[Value],
    variable: u32,
) -> Result<Value, AllocError>
    ensures { IfOk result (λ value. value ≡ read_off terms.now values.now variable) }
{
    match first_value(terms, values, variable) {
        Some(value) => value.copy(alloc),
        None => Ok(Value::Int(0)),
    }
}

// whether the term stands for the value among these terms and values
fn stands_for(term: &Term, value: &Value, terms: &[Term], values: &[Value]) -> bool
    ensures { result ≡ stands_for terms.now values.now term.now value.now }
{
    match term {
        Term::Const(constant) => constant == value,
        Term::Var(number) => match first_value(terms, values, *number) {
            Some(first) => first == value,
            None => false,
        },
    }
}

fn all_stand(terms: &[Term], values: &[Value]) -> bool
    ensures { result ≡ list_all (λ p. stands_for terms.now values.now p.0 p.1)
        (zip terms.now values.now) }
{
    terms
        .iter()
        .zip(values)
        .all(|(term, value)| stands_for(term, value, terms, values))
}

// whether the terms stand for the values: constants for themselves, and each variable for one value
#[tactic(auto, using(crate::proofs::AtomLemmas::gives_back, crate::proofs::AtomLemmas::gives_none_back))]
fn give_back(terms: &[Term], values: &[Value]) -> bool
    ensures { result ≡ give_back terms.now values.now }
{
    terms.len() == values.len() && all_stand(terms, values)
}
