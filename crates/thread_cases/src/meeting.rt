//! A gate that holds each of two workers at its first item until the other has come.
use mon_outside::Gate;
use std::sync::atomic::Ordering::SeqCst;
use std::sync::atomic::{AtomicBool, AtomicU64};
use std::thread;

/// So many looks a worker waits for the other.
const LOOKS: u64 = 100_000_000;

/// Two workers meet here at their first items. It counts how often each passes, and notes whether one passed with
/// another number than that of its passes before.
#[derive(Drop)]
pub struct Meeting {
    first: AtomicU64,
    second: AtomicU64,
    gave_up: AtomicBool,
    misnumbered: AtomicBool,
}

impl Meeting {
    /// Nobody has come.
    pub fn new() -> Self {
        Meeting {
            first: AtomicU64::new(0),
            second: AtomicU64::new(0),
            gave_up: AtomicBool::new(false),
            misnumbered: AtomicBool::new(false),
        }
    }

    /// How often worker 0 has come, and how often worker 1 has.
    pub fn passes(&self) -> (u64, u64) {
        (self.first.load(SeqCst), self.second.load(SeqCst))
    }

    /// Whether a worker let go before the other came.
    pub fn gave_up(&self) -> bool {
        self.gave_up.load(SeqCst)
    }

    /// Whether a worker passed with another number than that of its passes before.
    pub fn misnumbered(&self) -> bool {
        self.misnumbered.load(SeqCst)
    }

    // Waits until the other has come.
    fn wait(&self, other: &AtomicU64) {
        for _ in 0..LOOKS {
            if other.load(SeqCst) != 0 {
                return;
            }
            thread::yield_now();
        }
        self.gave_up.store(true, SeqCst);
    }
}

impl Gate for Meeting {
    fn pass(&self, worker: u32, item: u64) {
        let (mine, other) = match worker {
            0 => (&self.first, &self.second),
            _ => (&self.second, &self.first),
        };
        if item != mine.fetch_add(1, SeqCst) {
            self.misnumbered.store(true, SeqCst);
        }
        if item == 0 {
            self.wait(other);
        }
    }
}
