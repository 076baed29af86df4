//! Windows into which the data that others kept is put.
ghost use Rattle.std.specs.Prelude.{IfOk};
ghost use Rattle.eval_since.specs.SinceData.{KeepsRule, setting_of};
ghost use Rattle.eval_until.specs.UntilData.{UntilRule, setting_of as until_setting_of, until_of};
ghost use Rattle.monitorable.specs.CoreForms.{CoreForm};
ghost use Rattle.monitor_state.specs.Resuming.{SinceResumed, UntilResumed, WindowResumed};
ghost use Rattle.monitor_state.specs.StateRules.{WindowKeeps};
ghost use Rattle.monitor_state.specs.StateTimes.{time_before, times_from};
ghost use Rattle.monitor_nodes.specs.WindowNode.{IsWindow};

use crate::kept_times::KeptTimes;
use crate::state::{SinceKept, UntilKept, WindowData};
use eval_since::SinceState;
use eval_until::UntilState;
use monitor_nodes::Window;
use std::alloc::{AllocError, Global};

pub fn since_resumed(
    alloc: Global,
    state: SinceState,
    times: &KeptTimes,
    kept: SinceKept,
) -> Result<SinceState, AllocError>
    requires rule { KeepsRule (setting_of state) (time_before times.now kept.kept.pulled)
        (times_from times.now kept.kept.pulled) kept.kept }
    ensures { IfOk result (SinceResumed times.now state kept.kept) }
{
    let last = times.before_place(kept.kept.pulled);
    let next = times.from_place(kept.kept.pulled);
    let resumed = state.resumed(alloc, last, next, kept.kept)?;
    Ok(resumed)
}

pub fn until_resumed(
    alloc: Global,
    state: UntilState,
    times: &KeptTimes,
    kept: UntilKept,
) -> Result<UntilState, AllocError>
    requires rule { UntilRule (until_of (until_setting_of state) (times_from times.now kept.kept.pulled) kept.kept) }
    ensures { IfOk result (UntilResumed times.now state kept.kept) }
{
    let next = times.from_place(kept.kept.pulled);
    let resumed = state.resumed(alloc, next, kept.kept)?;
    Ok(resumed)
}

pub fn window_resumed(
    alloc: Global,
    window: Window,
    times: &KeptTimes,
    kept: WindowData,
) -> Result<Window, AllocError>
    requires fits { (w : CoreForm) × IsWindow w window × WindowKeeps times.now w kept }
    ensures { IfOk result (WindowResumed times.now window kept) }
{
    match window {
        Window::Since(state) => window_since(alloc, state, times, kept),
        Window::Until(state) => window_until(alloc, state, times, kept),
    }
}

fn window_since(
    alloc: Global,
    state: SinceState,
    times: &KeptTimes,
    kept: WindowData,
) -> Result<Window, AllocError>
    requires fits { (w : CoreForm) × IsWindow w (Window.Since state) × WindowKeeps times.now w kept }
    ensures { IfOk result (WindowResumed times.now (Window.Since state) kept) }
{
    let WindowData::Since(kept) = kept else {
        unreachable!();
    };
    let resumed = since_resumed(alloc, state, times, kept)?;
    Ok(Window::Since(resumed))
}

fn window_until(
    alloc: Global,
    state: UntilState,
    times: &KeptTimes,
    kept: WindowData,
) -> Result<Window, AllocError>
    requires fits { (w : CoreForm) × IsWindow w (Window.Until state) × WindowKeeps times.now w kept }
    ensures { IfOk result (WindowResumed times.now (Window.Until state) kept) }
{
    let WindowData::Until(kept) = kept else {
        unreachable!();
    };
    let resumed = until_resumed(alloc, state, times, kept)?;
    Ok(Window::Until(resumed))
}
