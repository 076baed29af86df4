//! What main's loop is lent and does not change.
ghost use Rattle.std.specs.Prelude.{◌≡◌, ◌≤◌, ◌+◌, false, min, true};
ghost use Rattle.turn_hub.specs.Ends.{cell_count};

use crate::bells::Bells;
use std::alloc::Global;
use std::sync::Wait;
use turn_hub::{Hub, Work};

/// The hub with the number of the cells that main turns, and what main needs to wait and to serve.
#[derive(Drop)]
pub struct LoopContext<'o, R, W: Work, G> {
    pub rt: &'o R,
    pub alloc: Global,
    pub hub: &'o Hub<W>,
    pub gate: &'o G,
    pub bells: &'o Bells,
    pub cells: u32,
    pub ghost seated: { cells ≤ cell_count hub.now },
}

impl<R: Wait, W: Work, G> LoopContext<'_, R, W, G> {
    /// Passes a little time behind a round without work, and answers how many of them came in a row: `idle` did before
    /// this one. `heard` was asked of main's bell before the round.
    pub fn rest(&self, busy: bool, heard: u32, idle: u64) -> u64
        ensures busy { busy ≡ true → result ≡ 0 }
        ensures idle { busy ≡ false → result ≡ min (idle + 1) u64.MAX }
    {
        if busy {
            return 0;
        }
        self.bells.main.rest(self.rt, heard, idle)
    }
}
