//! Runs the threads beside main's task.
ghost use Rattle.std.specs.Prelude.{◌≡◌, ◌+◌, ◌⊎◌, List, ◌++◌, OnOk, length, vec_len};
ghost use Rattle.hub_threads.specs.Bells.{bell_count};
ghost use Rattle.hub_threads.specs.Hands.{AreGroupsOf, AreHandsOf, cells_of};
ghost use Rattle.turn_hub.specs.declared.hub.Hand.{Hand};

use crate::bell::Bell;
use crate::loop_context::LoopContext;
use crate::main_task::MainTask;
use crate::serving::{Serving, Thread, start};
use mon_outside::Gate;
use std::alloc::AllocError;
use std::sync::Wait;
use std::thread;
use std::thread::{Scope, Threads};
use turn_hub::{Hand, Work};

// Starts the thread of this bell for a group. Main takes the hands if that is refused.
fn start_one<'s, E, R: Wait + Sync, W: Work + Send, G: Gate + Sync>(
    context: &LoopContext<'s, R, W, G>,
    scope: &Scope<'s, E>,
    bell: &'s Bell,
    hands: Vec<Hand<W>>,
    own: &mut Vec<Hand<W>>,
    threads: &mut Vec<Thread<W>>,
) -> Result<(), AllocError>
where
    W::Item: Send,
    W::Out: Send,
    requires hands { AreHandsOf context.now.hub.now hands.items }
    requires own { AreHandsOf context.now.hub.now own.old.items }
    ensures own { AreHandsOf context.now.hub.now own.new.items }
    ensures none_lost { OnOk result ((vec_len threads.new ≡ vec_len threads.old + 1)
        ⊎ (cells_of own.new.items ≡ cells_of own.old.items ++ cells_of hands.items)) }
{
    threads.reserve(1)?;
    let serving = Serving {
        rt: context.rt,
        alloc: context.alloc,
        hub: context.hub,
        bell,
        main: &context.bells.main,
        gate: context.gate,
    };
    let mut refused = start(serving, scope, hands, threads);
    own.append(&mut refused)?;
    Ok(())
}

// Starts a thread for each group. Main takes the hands of those that were refused.
fn start_all<'s, E, R: Wait + Sync, W: Work + Send, G: Gate + Sync>(
    context: &LoopContext<'s, R, W, G>,
    scope: &Scope<'s, E>,
    groups: Vec<Vec<Hand<W>>>,
    own: &mut Vec<Hand<W>>,
    threads: &mut Vec<Thread<W>>,
) -> Result<(), AllocError>
where
    W::Item: Send,
    W::Out: Send,
    requires groups { AreGroupsOf context.now.hub.now groups.items }
    requires bells { length groups.items ≡ bell_count context.now.bells.now }
    requires own { AreHandsOf context.now.hub.now own.old.items }
    ensures own { AreHandsOf context.now.hub.now own.new.items }
{
    for (t, hands) in groups.into_iter().enumerate() {
        start_one(
            context,
            scope,
            &context.bells.threads[t],
            hands,
            own,
            threads,
        )?;
    }
    Ok(())
}

// Waits for each thread. The hands that it gives back are let go.
fn join_all<R: Threads, W: Work>(rt: &R, threads: Vec<Thread<W>>) {
    for thread in threads {
        thread.join(rt);
    }
}

// Does it beside threads that this scope lends what they need.
fn in_scope<'s, 'm, E, R: Threads + Wait + Sync, W: Work + Send, G: Gate + Sync, T: MainTask<W>>(
    context: &LoopContext<'s, R, W, G>,
    scope: &Scope<'s, E>,
    groups: Vec<Vec<Hand<W>>>,
    mut own: Vec<Hand<W>>,
    task: &'m mut T,
) -> (T::Answer, &'m mut T)
where
    W::Item: Send,
    W::Out: Send,
    requires groups { AreGroupsOf context.now.hub.now groups.items }
    requires bells { length groups.items ≡ bell_count context.now.bells.now }
    requires own { AreHandsOf context.now.hub.now own.items }
    requires can { (hands : List (Hand W W.Item W.Out W.Seed))
        → AreHandsOf context.now.hub.now hands → T.can task.old hands }
    ensures same { result.1.ghost_name ≡ task.entry.ghost_name }
    ensures did { T.did task.entry.now result.0 result.1.now }
{
    let mut threads = Vec::new(context.alloc);
    let ready = start_all(context, scope, groups, &mut own, &mut threads);
    let answer = task.run(ready, &mut own);
    context.bells.stop_all();
    join_all(context.rt, threads);
    (answer, task)
}

/// Does main's task beside a thread for each group of hands, and ends each thread. Main gets the hands of a thread that
/// couldn't be started.
pub fn beside<R: Threads + Wait + Sync, W: Work + Send, G: Gate + Sync, T: MainTask<W>>(
    context: &LoopContext<'_, R, W, G>,
    groups: Vec<Vec<Hand<W>>>,
    own: Vec<Hand<W>>,
    task: &mut T,
) -> T::Answer
where
    W::Item: Send,
    W::Out: Send,
    requires groups { AreGroupsOf context.now.hub.now groups.items }
    requires bells { length groups.items ≡ bell_count context.now.bells.now }
    requires own { AreHandsOf context.now.hub.now own.items }
    requires can { (hands : List (Hand W W.Item W.Out W.Seed))
        → AreHandsOf context.now.hub.now hands → T.can task.old hands }
    ensures { T.did task.old result task.new }
{
    let (answer, _task) = thread::scope(
        thread::scope_env(),
        context.rt,
        move |scope|
            requires groups { AreGroupsOf context.now.hub.now groups.items }
            requires bells { length groups.items ≡ bell_count context.now.bells.now }
            requires own { AreHandsOf context.now.hub.now own.items }
            requires can { (hands : List (Hand W W.Item W.Out W.Seed))
                → AreHandsOf context.now.hub.now hands → T.can task.now hands }
        { in_scope(context, scope, groups, own, task) },
    );
    answer
}
