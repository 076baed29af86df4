//! All that a run reads before its log.
ghost use Rattle.std.specs.Prelude.{◌≡◌, ◌≤◌, IfOk, IfErr};
ghost use Rattle.mon_outside.specs.Views.{inputs_view};
ghost use Rattle.monitor_main.specs.CheckedPolicies.{checked_in};
ghost use Rattle.command_line.specs.CommandViews.{options_in, sources_in, text_in};
ghost use Rattle.monitor_main.specs.Divisions.{BeginsBy, ChangesAt};
ghost use Rattle.monitor_main.specs.Loading.{LoadsTask, StopsBeforeLog};
ghost use Rattle.monitor_main.specs.ReadyTasks.{IsReady};
ghost use Rattle.command_line.specs.Words.{Run};

use crate::checked_policy::load_sources;
use crate::division::load_division;
use crate::refusal::Refusal;
use crate::task::Task;
use command_line::{RunOptions, Sources};
use mon_outside::Inputs;
use std::alloc::Global;

/// The task that the words ask for: the signature, the policy, the strategy and the changes are read.
pub fn load_task<I: Inputs>(
    alloc: Global,
    sources: &Sources<'_>,
    options: &RunOptions<'_>,
    inputs: &mut I,
) -> Result<Task, Refusal>
    ensures files { I.files inputs.new ≡ I.files inputs.old }
    ensures later { I.faults inputs.old ≤ I.faults inputs.new }
    ensures ok { IfOk result (λ task.
        LoadsTask (sources_in sources.now) (options_in options.now) (checked_in task.checked)
        (inputs_view I.Inputs inputs.old) (inputs_view I.Inputs inputs.new)) }
    ensures ready { IfOk result IsReady }
    ensures first { IfOk result (BeginsBy options.now.strategy.now) }
    ensures changes { IfOk result (ChangesAt (text_in options.now.changes) (I.files inputs.old)) }
    ensures threads { IfOk result (λ task. task.threads ≡ options.now.threads) }
    ensures refused { IfErr result (StopsBeforeLog (Run (sources_in sources.now) (options_in options.now))
        (inputs_view I.Inputs inputs.old) (inputs_view I.Inputs inputs.new)) }
{
    let checked = load_sources(alloc, sources, inputs)?;
    match load_division(alloc, inputs, options, &checked.policy) {
        Ok(division) => Ok(Task::new(checked, division, options.threads)),
        Err(refusal) => Task::refused(checked, refusal),
    }
}
