//! How the work on a policy is divided among workers.
ghost use Rattle.std.specs.Prelude.{◌≡◌, ◌≤◌, IfOk, IfErr};
ghost use Rattle.mon_outside.specs.Views.{inputs_view};
ghost use Rattle.monitor_main.specs.CheckedPolicies.{Gives, IsInside};
ghost use Rattle.command_line.specs.CommandViews.{options_in};
ghost use Rattle.monitor_main.specs.Divisions.{AllDivide, division_in};
ghost use Rattle.monitor_main.specs.Loading.{LoadsDivision, RefusesDivision};
ghost use Rattle.monitor_main.specs.Tasks.{division_by};

use crate::changes_file::{changes_in, load_changes};
use crate::refusal::Refusal;
use crate::strategy_text::read_strategy;
use command_line::RunOptions;
use mfotl_model::Policy;
use mon_outside::Inputs;
use slice_strategy::{Change, Strategy};
use std::alloc::Global;

/// The strategy that divides the work at first, and the changes to other ones.
#[derive(Drop)]
pub struct Division {
    pub first: Strategy,
    pub changes: Vec<Change>,
}

/// The division that the options ask for, over the policy's free variables: the strategy is read, then the changes.
pub fn load_division<I: Inputs>(
    alloc: Global,
    inputs: &mut I,
    options: &RunOptions<'_>,
    policy: &Policy,
) -> Result<Division, Refusal>
    ensures files { I.files inputs.new ≡ I.files inputs.old }
    ensures later { I.faults inputs.old ≤ I.faults inputs.new }
    ensures ok { IfOk result (λ division.
        LoadsDivision policy.now.vars (options_in options.now) division
        (inputs_view I.Inputs inputs.old) (inputs_view I.Inputs inputs.new)) }
    ensures divides { IfOk result (AllDivide policy.now.vars) }
    ensures refused { IfErr result (RefusesDivision policy.now.vars (options_in options.now)
        (inputs_view I.Inputs inputs.old) (inputs_view I.Inputs inputs.new)) }
{
    let first = read_strategy(alloc, options.strategy, policy)?;
    let changes = load_changes(alloc, inputs, options.changes, policy)?;
    Ok(Division { first, changes })
}

/// The division by no strategy at first, and then by the changes of this script.
pub fn read_division(alloc: Global, script: &[u8], policy: &Policy) -> Result<Division, Refusal>
    ensures gives { Gives division_in result (division_by policy.now.vars script.now) }
    ensures divides { IfOk result (AllDivide policy.now.vars) }
    ensures inside { IfErr result IsInside }
{
    let first = read_strategy(alloc, "", policy)?;
    let changes = changes_in(alloc, script, policy)?;
    Ok(Division { first, changes })
}
