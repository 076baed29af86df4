//! The nodes that have the same table at each position.
ghost use Rattle.std.specs.Prelude.{◌≡◌, ◌&&◌, ◌∷◌, [], IfOk, IsTrue, OnOk};
ghost use Rattle.std.specs.List.{list_all};
ghost use Rattle.std.specs.Ordering.{eq_by_cmp};
ghost use Rattle.mfotl_model.specs.Satisfaction.{Valuation};
ghost use Rattle.mfotl_model.specs.Tables.{has};
ghost use Rattle.mfotl_model.specs.Values.{value_cmp};
ghost use Rattle.eval_bool.specs.Laws.{passes};
ghost use Rattle.monitorable.specs.CoreForms.{Compare, False};
ghost use Rattle.monitorable.specs.Fragment.{binds};
ghost use Rattle.monitorable.specs.PartView.{part_form};
ghost use Rattle.monitor_state.specs.Beginnings.{Accepted, Adds, AddsIf};
ghost use Rattle.monitor_state.specs.Constants.{is_ground, is_ground_test, is_fixed, stands_alone};
ghost use Rattle.monitor_state.specs.Nodes.{true_in};
ghost use Rattle.monitor_nodes.specs.Stands.{IsConstant, conjunct_as};

use crate::adding::add;
use mfotl_model::{Comparison, Row, Term, Value};
use monitor_nodes::Node;
use monitorable::{Part, Role, binds};
use relations::{Columns, Table};
use std::alloc::{AllocError, Global};

/// Adds the node of TRUE: that of FALSE on the left of SINCE or UNTIL, whose left operand is then negated.
#[inline(never)]
pub fn add_true(alloc: Global, role: Role, nodes: &mut Vec<Node>) -> Result<(), AllocError>
    ensures { OnOk result (Adds (true_in role ∷ []) nodes.old.items nodes.new.items) }
{
    match role {
        Role::Left => add_false(alloc, nodes),
        Role::Whole | Role::Part | Role::Negated => {
            let table = Table::unit(alloc)?;
            add(Node::Constant(table), nodes)
        }
    }
}

#[inline(never)]
pub fn add_false(alloc: Global, nodes: &mut Vec<Node>) -> Result<(), AllocError>
    ensures { OnOk result (Adds (False ∷ []) nodes.old.items nodes.new.items) }
{
    let table = Table::empty(alloc, Columns::new(alloc));
    add(Node::Constant(table), nodes)
}

/// Adds the node of a comparison, where it is one by itself: else it is a test among other conjuncts.
#[inline(never)]
pub fn add_comparison(
    alloc: Global,
    role: Role,
    comparison: &Comparison,
    nodes: &mut Vec<Node>,
) -> Result<(), AllocError>
    requires { Accepted role (Compare comparison.now) }
    ensures { OnOk result (AddsIf (stands_alone role (binds comparison.now)) (Compare comparison.now)
        nodes.old.items nodes.new.items) }
{
    if !stands_alone(role, comparison) {
        return Ok(());
    }
    let table = comparison_table(alloc, comparison)?;
    add(Node::Constant(table), nodes)
}

fn stands_alone(role: Role, comparison: &Comparison) -> bool
    ensures { result ≡ stands_alone role (binds comparison.now) }
{
    match role {
        Role::Whole | Role::Left => true,
        Role::Part => binds(comparison),
        Role::Negated => false,
    }
}

fn comparison_table(alloc: Global, comparison: &Comparison) -> Result<Table, AllocError>
    requires { IsTrue (is_fixed comparison.now) }
    ensures { IfOk result (IsConstant (Compare comparison.now)) }
{
    if binds(comparison) {
        equation_table(alloc, comparison)
    } else {
        closed_table(alloc, comparison)
    }
}

// The table of an equation of a variable with a constant.
fn equation_table(alloc: Global, comparison: &Comparison) -> Result<Table, AllocError>
    requires { IsTrue (binds comparison.now) }
    ensures { IfOk result (IsConstant (Compare comparison.now)) }
{
    match (&comparison.left, &comparison.right) {
        (Term::Var(x), Term::Const(value)) => one_value(alloc, *x, value),
        (Term::Const(value), Term::Var(x)) => one_value(alloc, *x, value),
        _ => unreachable!(),
    }
}

// The table that gives a variable one value.
fn one_value(alloc: Global, x: u32, value: &Value) -> Result<Table, AllocError>
    ensures columns { IfOk result (λ table. table.columns ≡ x ∷ []) }
    ensures has { IfOk result (λ table. (v : Valuation) → has table v ≡ eq_by_cmp value_cmp (v x) value.now) }
{
    let columns = Columns::from_array(alloc, [x])?;
    let rows = Vec::from_array(alloc, [row_of(alloc, value)?])?;
    Ok(Table::from_rows(columns, rows))
}

fn row_of(alloc: Global, value: &Value) -> Result<Row, AllocError>
    ensures { IfOk result (λ row. row ≡ value.now ∷ []) }
{
    Row::empty().push(alloc, value.copy(alloc)?)
}

// The table of a comparison of constants.
fn closed_table(alloc: Global, comparison: &Comparison) -> Result<Table, AllocError>
    requires { IsTrue (is_ground comparison.now) }
    ensures { IfOk result (IsConstant (Compare comparison.now)) }
{
    let table = Table::unit(alloc)?;
    Ok(table.selected(comparison, true))
}

/// The table without columns that has its row where all of the tests, which are of constants, come out as
/// wanted.
pub fn tested(alloc: Global, parts: &[Part]) -> Result<Table, AllocError>
    requires { IsTrue (list_all (λ part. is_ground_test (part_form part)) parts.now) }
    ensures columns { IfOk result (λ table. table.columns ≡ []) }
    ensures has { IfOk result (λ table. (v : Valuation) →
        has table v ≡ list_all (λ part. passes v (conjunct_as (part_form part))) parts.now) }
{
    let mut rest = Table::unit(alloc)?;
    for part in parts {
        rest = narrowed(rest, part);
    }
    Ok(rest)
}

fn narrowed(table: Table, part: &Part) -> Table
    requires columns { table.columns ≡ [] }
    requires closed { IsTrue (is_ground_test (part_form part.now)) }
    ensures columns { result.columns ≡ [] }
    ensures has { (v : Valuation) → has result v ≡ (has table v && passes v (conjunct_as (part_form part.now))) }
{
    match part {
        Part::Child(_, _) => table,
        Part::Test(comparison, wanted) => table.selected(comparison, *wanted),
    }
}
