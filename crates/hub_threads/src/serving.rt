//! The threads, and the hands that they serve.
ghost use Rattle.std.specs.Prelude.{◌≡◌, ◌<◌, ◌≤◌, ◌+◌, ◌⊎◌, ℕ, false, min, true, vec_capacity, vec_len};
ghost use Rattle.hub_threads.specs.Hands.{AreHandsOf, LookedMore, LookedOnce, Serve, any_found_its_turn, cells_of};

use crate::bell::Bell;
use mon_outside::Gate;
use std::alloc::Global;
use std::sync::Wait;
use std::thread::{JoinHandle, Scope};
use turn_hub::{Hand, Hub, Served, Work};

/// A thread that was started. It gives back the hands that it was given.
pub(crate) type Thread<W> = JoinHandle<Vec<Hand<W>>>;

/// What a thread that serves hands is lent. `bell` is its own, `main` is that of main.
#[derive(Drop)]
pub(crate) struct Serving<'s, R, W: Work, G> {
    pub(crate) rt: &'s R,
    pub(crate) alloc: Global,
    pub(crate) hub: &'s Hub<W>,
    pub(crate) bell: &'s Bell,
    pub(crate) main: &'s Bell,
    pub(crate) gate: &'s G,
}

/// Serves each of the hands once, and says whether it was the turn of one of them.
#[tactic(auto, unfolding(crate::specs::Hands::AreHandsOf))]
pub fn serve_each<W: Work, G: Gate>(
    alloc: Global,
    hub: &Hub<W>,
    hands: &mut Vec<Hand<W>>,
    gate: &G,
) -> bool
    requires { AreHandsOf hub.now hands.old.items }
    ensures serve { Serve hub.now (cells_of hands.old.items) hands.new.items }
    ensures served { LookedOnce hands.old.items hands.new.items }
    ensures busy { result ≡ any_found_its_turn hands.new.items }
{
    let mut busy = false;
    for k in 0..hands.len() {
        match hub.serve(alloc, &mut hands[k], gate) {
            Served::NotGiven => {}
            _ => busy = true,
        }
    }
    busy
}

impl<R: Wait, W: Work, G: Gate> Serving<'_, R, W, G> {
    // Serves each of the hands once. Rings main's bell behind a round with work, and passes a little time behind one
    // without. Answers how many without work came in a row. `heard` was asked of the thread's bell before.
    fn serve_round(&self, hands: &mut Vec<Hand<W>>, heard: u32, idle: u64) -> u64
        requires { AreHandsOf self.now.hub.now hands.old.items }
        ensures serve { Serve self.now.hub.now (cells_of hands.old.items) hands.new.items }
        ensures served { LookedOnce hands.old.items hands.new.items }
        ensures busy { any_found_its_turn hands.new.items ≡ true → result ≡ 0 }
        ensures idle { any_found_its_turn hands.new.items ≡ false → result ≡ min (idle + 1) u64.MAX }
    {
        if serve_each(self.alloc, self.hub, hands, self.gate) {
            self.main.ring();
            return 0;
        }
        self.bell.rest(self.rt, heard, idle)
    }
}

// Serves the hands in turn until the bell says to stop, and gives them back.
fn serve_until<R: Wait, W: Work, G: Gate>(
    serving: Serving<'_, R, W, G>,
    mut hands: Vec<Hand<W>>,
) -> Vec<Hand<W>>
    requires { AreHandsOf serving.hub.now hands.items }
    ensures serve { Serve serving.entry.hub.now (cells_of hands.items) result.items }
    ensures served { (count : ℕ) × LookedMore count hands.items result.items }
{
    let mut idle = 0u64;
    for _ in serving.rt.forever() {
        let heard = serving.bell.rings();
        if serving.bell.is_stopped() {
            return hands;
        }
        idle = serving.serve_round(&mut hands, heard, idle);
    }
    unreachable!()
}

/// Starts a thread for these hands. If that is refused, the hands come back, for main to serve.
pub(crate) fn start<'s, E, R: Wait + Sync, W: Work + Send, G: Gate + Sync>(
    serving: Serving<'s, R, W, G>,
    scope: &Scope<'s, E>,
    hands: Vec<Hand<W>>,
    threads: &mut Vec<Thread<W>>,
) -> Vec<Hand<W>>
where
    W::Item: Send,
    W::Out: Send,
    requires hands { AreHandsOf serving.hub.now hands.items }
    requires room { vec_len threads.old < vec_capacity threads.old }
    ensures hands { AreHandsOf serving.entry.hub.now result.items }
    ensures none_lost { (vec_len threads.new ≡ vec_len threads.old + 1)
        ⊎ (cells_of result.items ≡ cells_of hands.items) }
    ensures room { (vec_len threads.new ≤ vec_len threads.old + 1)
        × (vec_capacity threads.new ≡ vec_capacity threads.old) }
{
    let alloc = serving.alloc;
    let bell = serving.bell;
    match scope.spawn(move || { serve_until(serving, hands) }) {
        Ok(thread) => {
            threads.push_reserved(thread);
            Vec::new(alloc)
        }
        Err(refused) => {
            bell.stop();
            (refused.value)()
        }
    }
}
