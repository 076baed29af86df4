//! A gate that compares where it is passed with what was worked.
use mon_outside::Gate;
use std::sync::atomic::Ordering::SeqCst;
use std::sync::atomic::{AtomicBool, AtomicU64};

/// The gate of one cell. It notes whether it was passed with another number than the cell's, or with another number of
/// an item than that of the items that the cell's work took before.
#[derive(Drop)]
pub struct Numbers {
    cell: u32,
    worked: AtomicU64,
    passes: AtomicU64,
    differed: AtomicBool,
}

impl Numbers {
    /// The gate of this cell, whose work took nothing.
    pub fn new(cell: u32) -> Self {
        Numbers {
            cell,
            worked: AtomicU64::new(0),
            passes: AtomicU64::new(0),
            differed: AtomicBool::new(false),
        }
    }

    /// Says that the cell's work takes an item.
    pub fn take(&self) {
        self.worked.fetch_add(1, SeqCst);
    }

    /// How often it was passed.
    pub fn passes(&self) -> u64 {
        self.passes.load(SeqCst)
    }

    /// Whether it was passed with another number.
    pub fn differed(&self) -> bool {
        self.differed.load(SeqCst)
    }
}

impl Gate for Numbers {
    fn pass(&self, worker: u32, item: u64) {
        self.passes.fetch_add(1, SeqCst);
        if worker != self.cell || item != self.worked.load(SeqCst) {
            self.differed.store(true, SeqCst);
        }
    }
}
