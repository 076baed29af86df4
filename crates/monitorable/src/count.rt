//! The size of a normal form, told without building it.
ghost use Rattle.std.specs.Prelude.{◌≡◌};
ghost use Rattle.mfotl_model.specs.Formulas.{form};
ghost use Rattle.monitorable.specs.NodeCount.{nodes, own_nodes};
ghost use Rattle.monitorable.specs.NormalForm.{positive, negative};
ghost use Rattle.monitorable.specs.Budget.{spent};

use mfotl_model::Formula;

/// What is left of a budget of nodes after so many were spent.
fn pay(count: u32, budget: Option<u32>) -> Option<u32>
    ensures { result ≡ spent count budget }
{
    match budget {
        Some(budget) => budget.checked_sub(count),
        None => None,
    }
}

/// How many nodes a formula's normal form has beside those that its operands give.
fn own_nodes(formula: &Formula) -> u32
    ensures { result ≡ own_nodes (form formula.now) }
{
    match formula {
        Formula::Not(_) => 0,
        Formula::Forall(_, _) | Formula::Once(_, _) | Formula::Eventually(_, _) => 2,
        Formula::Equiv(_, _) | Formula::Historically(_, _) | Formula::Always(_, _) => 3,
        Formula::True | Formula::False | Formula::Atom(_) | Formula::Compare(_) => 1,
        Formula::And(_, _) | Formula::Or(_, _) | Formula::Implies(_, _) => 1,
        Formula::Exists(_, _) | Formula::Previous(_, _) | Formula::Next(_, _) => 1,
        Formula::Since(_, _, _) | Formula::Until(_, _, _) => 1,
    }
}

/// What is left of the budget after the nodes of the formula's normal form.
#[cycle(counting)]
#[tactic(auto, unfolding(crate::specs::NormalForm::positive, crate::specs::NodeCount::nodes), using(crate::proofs::BudgetLemmas::spent_twice))]
pub fn pay_for(formula: &Formula, budget: Option<u32>) -> Option<u32>
    ensures { result ≡ spent (nodes (positive (form formula.now))) budget }
{
    if budget.is_none() {
        return None;
    }
    let budget = pay(own_nodes(formula), budget);
    match formula {
        Formula::True | Formula::False | Formula::Atom(_) | Formula::Compare(_) => budget,
        Formula::And(left, right)
        | Formula::Or(left, right)
        | Formula::Since(_, left, right)
        | Formula::Until(_, left, right) => pay_for(right, pay_for(left, budget)),
        Formula::Implies(left, right) => pay_for(right, pay_for_negated(left, budget)),
        Formula::Equiv(left, right) => {
            let forth = pay_for(right, pay_for_negated(left, budget));
            pay_for(left, pay_for_negated(right, forth))
        }
        Formula::Exists(_, inner)
        | Formula::Previous(_, inner)
        | Formula::Next(_, inner)
        | Formula::Once(_, inner)
        | Formula::Eventually(_, inner) => pay_for(inner, budget),
        Formula::Not(inner)
        | Formula::Forall(_, inner)
        | Formula::Historically(_, inner)
        | Formula::Always(_, inner) => pay_for_negated(inner, budget),
    }
}

/// What is left of the budget after the nodes of the normal form of the formula's negation.
#[cycle(counting)]
#[tactic(auto, unfolding(crate::specs::NormalForm::positive, crate::specs::NormalForm::negative, crate::specs::NodeCount::nodes), using(crate::proofs::BudgetLemmas::spent_twice))]
pub fn pay_for_negated(formula: &Formula, budget: Option<u32>) -> Option<u32>
    ensures { result ≡ spent (nodes (negative (form formula.now))) budget }
{
    if budget.is_none() {
        return None;
    }
    match formula {
        Formula::Not(inner) => pay_for(inner, budget),
        Formula::Or(left, right) => pay_for_negated(right, pay_for_negated(left, pay(1, budget))),
        Formula::Implies(left, right) => pay_for_negated(right, pay_for(left, pay(1, budget))),
        Formula::Forall(_, inner) => pay_for_negated(inner, pay(1, budget)),
        Formula::Historically(_, inner) | Formula::Always(_, inner) => {
            pay_for_negated(inner, pay(2, budget))
        }
        Formula::True
        | Formula::False
        | Formula::Atom(_)
        | Formula::Compare(_)
        | Formula::And(_, _)
        | Formula::Equiv(_, _)
        | Formula::Exists(_, _)
        | Formula::Previous(_, _)
        | Formula::Next(_, _)
        | Formula::Once(_, _)
        | Formula::Eventually(_, _)
        | Formula::Since(_, _, _)
        | Formula::Until(_, _, _) => pay_for(formula, pay(1, budget)),
    }
}
