//! A gate that counts how often one worker passes.
use mon_outside::Gate;
use std::sync::atomic::AtomicU64;
use std::sync::atomic::Ordering::SeqCst;

/// Counts the items of one worker.
#[derive(Drop)]
pub struct Counter {
    worker: u32,
    passes: AtomicU64,
}

impl Counter {
    /// A gate that this worker has not passed.
    pub fn new(worker: u32) -> Self {
        Counter {
            worker,
            passes: AtomicU64::new(0),
        }
    }

    /// How often the worker has passed.
    pub fn passes(&self) -> u64 {
        self.passes.load(SeqCst)
    }
}

impl Gate for Counter {
    fn pass(&self, worker: u32, _item: u64) {
        if worker == self.worker {
            self.passes.fetch_add(1, SeqCst);
        }
    }
}
