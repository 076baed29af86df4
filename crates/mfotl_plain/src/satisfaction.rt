//! Whether a formula holds, by its recursion.
ghost use Rattle.std.specs.Prelude.{◌≡◌, ◌<◌, not, length, IfOk};
ghost use Rattle.std.specs.List.{list_all, list_any};
ghost use Rattle.mfotl_plain.specs.Bindings.{valuation_of};
ghost use Rattle.mfotl_plain.specs.Operators.{between, connected, in_time};
ghost use Rattle.mfotl_model.specs.Formulas.{form};
ghost use Rattle.mfotl_model.specs.Operators.{IsTemporal};
ghost use Rattle.mfotl_model.specs.Satisfaction.{compares, database_at, event_of, has_event, sat, term_value};
ghost use Rattle.mfotl_model.specs.Satisfaction.{truths, with_value};
ghost use Rattle.mfotl_model.specs.Violations.{valuation};

use crate::bindings::{Bindings, event_of, term_value};
use crate::temporal::{Modality, Span, between, in_time};
use mfotl_model::{Atom, Comparison, Formula, Interval, Partial, TimePoint, Value};
use std::alloc::{AllocError, Global};

/// Whether the formula holds at a position of the log, where the row gives values to its free
/// variables and the quantified ones range over `dom`.
pub fn holds(
    alloc: Global,
    formula: &Formula,
    log: &[TimePoint],
    dom: &[Value],
    part: &Partial<'_>,
    at: usize,
) -> Result<bool, AllocError>
    requires { at < length log.now }
    ensures { IfOk result (λ held. held
        ≡ sat log.now dom.now (valuation part.now.cols.now part.now.row.now) at (form formula.now)) }
{
    let bindings = Bindings::Row(part.cols, part.row.values());
    let interpretation = Interpretation {
        alloc,
        log,
        dom,
        bindings: &bindings,
        at,
    };
    interpretation.holds(formula)
}

// What formulas are true or false of: a log, the values that quantified variables range over, the
// values that variables have, and a position of the log.
#[derive(Clone, Copy)]
struct Interpretation<'a> {
    alloc: Global,
    log: &'a [TimePoint],
    dom: &'a [Value],
    bindings: &'a Bindings<'a>,
    at: usize,
}

// A connective of two operands.
#[derive(Clone, Copy)]
enum Connective {
    And,
    Or,
    Implies,
    Equiv,
}

impl Connective {
    fn connects(self, left: bool, right: bool) -> bool
        ensures { result ≡ connected self left right }
    {
        match self {
            Connective::And => left && right,
            Connective::Or => left || right,
            Connective::Implies => !left || right,
            Connective::Equiv => left == right,
        }
    }
}

impl Interpretation<'_> {
    #[cycle(satisfaction)]
    #[tactic(auto, unfolding(mfotl_model::specs::Satisfaction::sat))]
    fn holds(&self, formula: &Formula) -> Result<bool, AllocError>
        requires { self.now.at < length self.now.log.now }
        ensures { IfOk result (λ held. held ≡ sat self.now.log.now self.now.dom.now
            (valuation_of self.now.bindings.now) self.now.at (form formula.now)) }
    {
        match formula {
            Formula::True => Ok(true),
            Formula::False => Ok(false),
            Formula::Atom(atom) => self.has_event(atom),
            Formula::Compare(comparison) => Ok(self.compared(comparison)),
            Formula::Not(f) => self.fails(f),
            Formula::And(f, g) => self.connects(Connective::And, f, g),
            Formula::Or(f, g) => self.connects(Connective::Or, f, g),
            Formula::Implies(f, g) => self.connects(Connective::Implies, f, g),
            Formula::Equiv(f, g) => self.connects(Connective::Equiv, f, g),
            Formula::Exists(x, f) => self.holds_for_some(x.number, f),
            Formula::Forall(x, f) => self.holds_for_every(x.number, f),
            _ => self.holds_over_time(formula),
        }
    }

    #[cycle(satisfaction)]
    #[tactic(auto, unfolding(mfotl_model::specs::Satisfaction::sat))]
    fn holds_over_time(&self, formula: &Formula) -> Result<bool, AllocError>
        requires at { self.now.at < length self.now.log.now }
        requires temporal { IsTemporal (form formula.now) }
        ensures { IfOk result (λ held. held ≡ sat self.now.log.now self.now.dom.now
            (valuation_of self.now.bindings.now) self.now.at (form formula.now)) }
    {
        match formula {
            Formula::Previous(i, f) => self.holds_in_time(Modality::Previous, i, f),
            Formula::Next(i, f) => self.holds_in_time(Modality::Next, i, f),
            Formula::Once(i, f) => self.holds_in_time(Modality::Once, i, f),
            Formula::Historically(i, f) => self.holds_in_time(Modality::Historically, i, f),
            Formula::Eventually(i, f) => self.holds_in_time(Modality::Eventually, i, f),
            Formula::Always(i, f) => self.holds_in_time(Modality::Always, i, f),
            Formula::Since(i, f, g) => self.holds_between(Span::Since, i, f, g),
            Formula::Until(i, f, g) => self.holds_between(Span::Until, i, f, g),
            _ => unreachable!(),
        }
    }

    #[cycle(satisfaction)]
    fn fails(&self, formula: &Formula) -> Result<bool, AllocError>
        requires { self.now.at < length self.now.log.now }
        ensures { IfOk result (λ failed. failed ≡ not (sat self.now.log.now self.now.dom.now
            (valuation_of self.now.bindings.now) self.now.at (form formula.now))) }
    {
        Ok(!self.holds(formula)?)
    }

    #[cycle(satisfaction)]
    fn connects(
        &self,
        connective: Connective,
        left: &Formula,
        right: &Formula,
    ) -> Result<bool, AllocError>
        requires { self.now.at < length self.now.log.now }
        ensures { IfOk result (λ held. held ≡ connected connective
            (sat self.now.log.now self.now.dom.now (valuation_of self.now.bindings.now) self.now.at
            (form left.now))
            (sat self.now.log.now self.now.dom.now (valuation_of self.now.bindings.now) self.now.at
            (form right.now))) }
    {
        let left = self.holds(left)?;
        let right = self.holds(right)?;
        Ok(connective.connects(left, right))
    }

    #[cycle(satisfaction)]
    fn holds_for_some(&self, x: u32, formula: &Formula) -> Result<bool, AllocError>
        requires { self.now.at < length self.now.log.now }
        ensures { IfOk result (λ held. held ≡ list_any (λ a. sat self.now.log.now self.now.dom.now
            (with_value (valuation_of self.now.bindings.now) x a) self.now.at (form formula.now))
            self.now.dom.now) }
    {
        for value in self.dom {
            let bindings = Bindings::With(x, &*value, &*self.bindings);
            let inner = Interpretation {
                bindings: &bindings,
                ..*self
            };
            if inner.holds(formula)? {
                return Ok(true);
            }
        }
        Ok(false)
    }

    #[cycle(satisfaction)]
    fn holds_for_every(&self, x: u32, formula: &Formula) -> Result<bool, AllocError>
        requires { self.now.at < length self.now.log.now }
        ensures { IfOk result (λ held. held ≡ list_all (λ a. sat self.now.log.now self.now.dom.now
            (with_value (valuation_of self.now.bindings.now) x a) self.now.at (form formula.now))
            self.now.dom.now) }
    {
        for value in self.dom {
            let bindings = Bindings::With(x, &*value, &*self.bindings);
            let inner = Interpretation {
                bindings: &bindings,
                ..*self
            };
            if !inner.holds(formula)? {
                return Ok(false);
            }
        }
        Ok(true)
    }

    // Whether the formula holds, for each position of the log.
    #[cycle(satisfaction)]
    fn truths(&self, formula: &Formula) -> Result<Vec<bool>, AllocError>
        ensures { IfOk result (λ values. values.items ≡ truths (length self.now.log.now)
            (λ j. sat self.now.log.now self.now.dom.now (valuation_of self.now.bindings.now) j
            (form formula.now))) }
    {
        let mut values = Vec::new(self.alloc);
        for at in 0..self.log.len() {
            let there = Interpretation { at, ..*self };
            values.push(there.holds(formula)?)?;
        }
        Ok(values)
    }

    #[cycle(satisfaction)]
    fn holds_in_time(
        &self,
        modality: Modality,
        interval: &Interval,
        formula: &Formula,
    ) -> Result<bool, AllocError>
        requires { self.now.at < length self.now.log.now }
        ensures { IfOk result (λ held. held ≡ in_time modality interval.now self.now.log.now
            (truths (length self.now.log.now) (λ j. sat self.now.log.now self.now.dom.now
            (valuation_of self.now.bindings.now) j (form formula.now))) self.now.at) }
    {
        let truths = self.truths(formula)?;
        in_time(
            self.alloc,
            modality,
            interval,
            self.log,
            truths.as_slice(),
            self.at,
        )
    }

    #[cycle(satisfaction)]
    fn holds_between(
        &self,
        span: Span,
        interval: &Interval,
        left: &Formula,
        right: &Formula,
    ) -> Result<bool, AllocError>
        requires { self.now.at < length self.now.log.now }
        ensures { IfOk result (λ held. held ≡ between span interval.now self.now.log.now
            (truths (length self.now.log.now) (λ j. sat self.now.log.now self.now.dom.now
            (valuation_of self.now.bindings.now) j (form left.now)))
            (truths (length self.now.log.now) (λ j. sat self.now.log.now self.now.dom.now
            (valuation_of self.now.bindings.now) j (form right.now))) self.now.at) }
    {
        let left = self.truths(left)?;
        let right = self.truths(right)?;
        Ok(between(
            span,
            interval,
            self.log,
            left.as_slice(),
            right.as_slice(),
            self.at,
        ))
    }
}

impl Interpretation<'_> {
    fn has_event(&self, atom: &Atom) -> Result<bool, AllocError>
        ensures { IfOk result (λ found. found ≡ has_event (database_at self.now.log.now self.now.at)
            (event_of (valuation_of self.now.bindings.now) atom.now)) }
    {
        let event = event_of(self.alloc, atom, self.bindings)?;
        match self.log.get(self.at) {
            Some(point) => Ok(point.db.contains(&event)),
            None => Ok(false),
        }
    }

    fn compared(&self, comparison: &Comparison) -> bool
        ensures { result ≡ compares comparison.now.sign
            (term_value (valuation_of self.now.bindings.now) comparison.now.left)
            (term_value (valuation_of self.now.bindings.now) comparison.now.right) }
    {
        let zero = Value::Int(0);
        let left = term_value(&comparison.left, self.bindings, &zero);
        let right = term_value(&comparison.right, self.bindings, &zero);
        comparison.sign.compares(left, right)
    }
}
