//! What main or a thread sleeps on while there is nothing to do.
ghost use Rattle.std.specs.Prelude.{◌≡◌, ◌+◌, min};

use std::hint;
use std::sync::Wait;
use std::sync::atomic::Ordering::SeqCst;
use std::sync::atomic::{AtomicBool, AtomicU64};
use std::time::Duration;

/// From the round of this number on, of those without work in a row, each ends with a sleep; the ones before it take
/// some microseconds. A yield would hand the processor of a busy machine to others for milliseconds, while a sleeper is
/// woken at once.
const PATIENCE: u64 = 100;

/// The longest sleep.
const NAP_MILLISECONDS: u64 = 10;

/// Rings when there may be something to do. No result rests on it: whoever sleeps wakes after the longest sleep, too.
#[derive(Drop)]
pub struct Bell {
    rings: AtomicU64,
    sleeps: AtomicBool,
    stopped: AtomicBool,
}

impl Bell {
    /// It never rang, and nobody sleeps on it.
    pub(crate) fn new() -> Self {
        Bell {
            rings: AtomicU64::new(0),
            sleeps: AtomicBool::new(false),
            stopped: AtomicBool::new(false),
        }
    }

    /// How often it rang, modulo 2^32.
    pub fn rings(&self) -> u32 {
        (self.rings.load(SeqCst) & 0xffff_ffff) as u32
    }

    /// Wakes who sleeps on it, and keeps awake who is about to.
    pub(crate) fn ring(&self) {
        self.rings.fetch_add(1, SeqCst);
        if self.sleeps.load(SeqCst) {
            self.rings.wake_one();
        }
    }

    /// Passes a little time after a round without work, before which there were `idle` in a row, and answers how many
    /// there are with it: from some number on it sleeps until it rings, unless it rang since `heard` was asked of
    /// `rings`.
    pub(crate) fn rest<R: Wait>(&self, rt: &R, heard: u32, idle: u64) -> u64
        ensures { result ≡ min (idle + 1) u64.MAX }
    {
        let idle = idle.saturating_add(1);
        if idle < PATIENCE {
            hint::spin_loop();
            return idle;
        }
        self.sleeps.store(true, SeqCst);
        self.rings
            .park_timeout(rt, heard, Duration::from_millis(NAP_MILLISECONDS));
        self.sleeps.store(false, SeqCst);
        idle
    }

    /// Tells the thread to stop.
    pub(crate) fn stop(&self) {
        self.stopped.store(true, SeqCst);
        self.ring();
    }

    /// Whether the thread was told to stop.
    pub(crate) fn is_stopped(&self) -> bool {
        self.stopped.load(SeqCst)
    }
}
