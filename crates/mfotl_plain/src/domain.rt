//! The active domain: the values of a log and of a formula.
ghost use Rattle.std.specs.Prelude.{◌≡◌, ◌++◌, IfOk, OnOk};
ghost use Rattle.std.specs.List.{flat_map};
ghost use Rattle.mfotl_model.specs.ActiveDomain.{adom, constant_in, constants, log_values};
ghost use Rattle.mfotl_model.specs.Ascending.{ascending};
ghost use Rattle.mfotl_model.specs.Formulas.{form};
ghost use Rattle.mfotl_model.specs.Values.{value_cmp};

use mfotl_model::{Comparison, Event, Formula, Term, TimePoint, Value};
use std::alloc::{AllocError, Global};

/// The values that occur in the log or in the formula, in ascending order.
#[tactic(auto, using(crate::proofs::DomainLemmas::in_order_behind))]
pub fn active_domain(
    alloc: Global,
    formula: &Formula,
    log: &[TimePoint],
) -> Result<Vec<Value>, AllocError>
    ensures { IfOk result (λ values. values.items ≡ adom log.now (form formula.now)) }
{
    let mut values = values_of_log(alloc, log)?;
    push_constants(alloc, &mut values, formula)?;
    Ok(in_order(values))
}

// The values in ascending order, equal ones once.
#[tactic(auto, using(crate::proofs::DomainLemmas::values_ascend))]
fn in_order(mut values: Vec<Value>) -> Vec<Value>
    ensures { result.items ≡ ascending value_cmp values.items }
{
    values.sort_unstable();
    values.dedup();
    values
}

// The values of a log, in any order and any of them more than once.
fn values_of_log(alloc: Global, log: &[TimePoint]) -> Result<Vec<Value>, AllocError>
    ensures { IfOk result (λ values. ascending value_cmp values.items
        ≡ ascending value_cmp (log_values log.now)) }
{
    let mut values = Vec::new(alloc);
    for point in log {
        push_arguments(alloc, &mut values, point.db.inserted())?;
    }
    Ok(values)
}

fn push_arguments(
    alloc: Global,
    values: &mut Vec<Value>,
    events: &[Event],
) -> Result<(), AllocError>
    ensures { OnOk result (values.new.items
        ≡ values.old.items ++ flat_map (λ event. event.args) events.now) }
{
    for event in events {
        push_values(alloc, values, event.args.values())?;
    }
    Ok(())
}

/// Adds copies of more values.
pub fn push_values(alloc: Global, values: &mut Vec<Value>, more: &[Value]) -> Result<(), AllocError>
    ensures { OnOk result (values.new.items ≡ values.old.items ++ more.now) }
{
    for value in more {
        values.push(value.copy(alloc)?)?;
    }
    Ok(())
}

#[cycle(constants)]
#[tactic(auto, unfolding(mfotl_model::specs::ActiveDomain::constants))]
fn push_constants(
    alloc: Global,
    values: &mut Vec<Value>,
    formula: &Formula,
) -> Result<(), AllocError>
    ensures { OnOk result (values.new.items ≡ values.old.items ++ constants (form formula.now)) }
{
    match formula {
        Formula::True | Formula::False => Ok(()),
        Formula::Atom(atom) => push_all_constants(alloc, values, atom.args.as_slice()),
        Formula::Compare(comparison) => push_compared(alloc, values, comparison),
        Formula::Not(f)
        | Formula::Exists(_, f)
        | Formula::Forall(_, f)
        | Formula::Previous(_, f)
        | Formula::Next(_, f)
        | Formula::Once(_, f)
        | Formula::Historically(_, f)
        | Formula::Eventually(_, f)
        | Formula::Always(_, f) => push_constants(alloc, values, f),
        Formula::And(f, g)
        | Formula::Or(f, g)
        | Formula::Implies(f, g)
        | Formula::Equiv(f, g)
        | Formula::Since(_, f, g)
        | Formula::Until(_, f, g) => push_both_constants(alloc, values, f, g),
    }
}

#[cycle(constants)]
fn push_both_constants(
    alloc: Global,
    values: &mut Vec<Value>,
    left: &Formula,
    right: &Formula,
) -> Result<(), AllocError>
    ensures { OnOk result (values.new.items
        ≡ values.old.items ++ (constants (form left.now) ++ constants (form right.now))) }
{
    push_constants(alloc, values, left)?;
    push_constants(alloc, values, right)
}

fn push_compared(
    alloc: Global,
    values: &mut Vec<Value>,
    comparison: &Comparison,
) -> Result<(), AllocError>
    ensures { OnOk result (values.new.items
        ≡ values.old.items ++ (constant_in comparison.now.left ++ constant_in comparison.now.right)) }
{
    push_constant(alloc, values, &comparison.left)?;
    push_constant(alloc, values, &comparison.right)
}

fn push_all_constants(
    alloc: Global,
    values: &mut Vec<Value>,
    terms: &[Term],
) -> Result<(), AllocError>
    ensures { OnOk result (values.new.items ≡ values.old.items ++ flat_map constant_in terms.now) }
{
    for term in terms {
        push_constant(alloc, values, term)?;
    }
    Ok(())
}

fn push_constant(alloc: Global, values: &mut Vec<Value>, term: &Term) -> Result<(), AllocError>
    ensures { OnOk result (values.new.items ≡ values.old.items ++ constant_in term.now) }
{
    if let Term::Const(value) = term {
        values.push(value.copy(alloc)?)?;
    }
    Ok(())
}
