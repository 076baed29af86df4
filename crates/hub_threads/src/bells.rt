//! The bells of main and of its threads.
ghost use Rattle.std.specs.Prelude.{◌≡◌, IfOk};
ghost use Rattle.hub_threads.specs.Bells.{bell_count};

use crate::bell::Bell;
use std::alloc::{AllocError, Global};

/// A bell for main, and one for each thread, by its number.
#[derive(Drop)]
pub struct Bells {
    pub main: Bell,
    pub(crate) threads: Vec<Bell>,
}

impl Bells {
    /// Bells for so many threads.
    pub(crate) fn new(alloc: Global, count: usize) -> Result<Self, AllocError>
        ensures { IfOk result (λ bells. bell_count bells ≡ count) }
    {
        let mut threads = Vec::with_capacity(alloc, count)?;
        for _ in 0..count {
            threads.push(Bell::new())?;
        }
        Ok(Bells {
            main: Bell::new(),
            threads,
        })
    }

    /// Wakes the thread that serves the worker of this number, if a thread does.
    pub fn ring(&self, worker: u32) {
        let count = self.threads.len();
        if count != 0 {
            self.threads[worker as usize % count].ring();
        }
    }

    /// Tells each thread to stop.
    pub(crate) fn stop_all(&self) {
        for bell in self.threads.iter() {
            bell.stop();
        }
    }
}
