//! The times that are kept for one row, strictly ascending.
ghost use Rattle.std.specs.Prelude.{◌≡◌, ◌==◌, [], IfOk, OnOk, length};
ghost use Rattle.std.specs.List.Sorted.{IsStrictlyIncreasing};
ghost use Rattle.row_times.specs.Times.{ArePast, added, is_new, reaches, recent};

use mfotl_model::Interval;
use short_queue::ShortQueue;
use std::alloc::{AllocError, Global};
use std::marker::Model;

#[derive(Drop)]
pub struct Times {
    list: ShortQueue<u64>,
}

impl Model for Times {
    ghost use Rattle.std.specs.Prelude.{List, ℕ};
    ghost use Rattle.std.specs.List.Sorted.{IsStrictlyIncreasing};

    ghost Value = { List ℕ };

    ghost view = { λ t. t.list };

    ghost invariant = { λ t. IsStrictlyIncreasing t.list };
}

fn is_new(list: &ShortQueue<u64>, x: u64, bounded: bool) -> bool
    ensures { result ≡ is_new bounded list.now x }
{
    match list.back() {
        None => true,
        Some(last) => bounded && last != x,
    }
}

impl Times {
    pub fn new() -> Self
        ensures { result ≡ [] }
    {
        Times {
            list: ShortQueue::new(),
        }
    }

    /// A first time.
    pub fn first(alloc: Global, x: u64, bounded: bool) -> Result<Self, AllocError>
        ensures { IfOk result (λ times. times ≡ added bounded [] x) }
    {
        let mut times = Times::new();
        times.add(alloc, x, bounded)?;
        Ok(times)
    }

    pub fn is_empty(&self) -> bool
        ensures { result ≡ (length self.now == 0) }
    {
        self.list.is_empty()
    }

    /// Keeps one more time, which is no earlier than those kept.
    pub fn add(&mut self, alloc: Global, x: u64, bounded: bool) -> Result<(), AllocError>
        requires { ArePast x self.old }
        ensures { OnOk result (self.new ≡ added bounded self.old x) }
    {
        if is_new(&self.list, x, bounded) {
            self.list.push_back(alloc, x)?;
        }
        Ok(())
    }

    /// Forgets what lies further back than `hi`.
    pub fn forget(&mut self, hi: u64, now: u64)
        ensures { self.new ≡ recent hi now self.old }
    {
        while let Some(first) = self.list.front() {
            if now.saturating_sub(first) <= hi {
                return;
            }
            self.list.pop_front();
        }
    }

    /// Whether some kept time lies in the interval, seen from `x`.
    pub fn reaches(&self, interval: &Interval, x: u64) -> bool
        ensures { result ≡ reaches interval.now self.now x }
    {
        for i in 0..self.list.len() {
            let distance = x.saturating_sub(self.list.get(i));
            if interval.contains(distance) {
                return true;
            }
            // later times lie nearer still
            if distance < interval.lo {
                return false;
            }
        }
        false
    }

    /// The times of a list, which ascend strictly.
    pub fn from_vec(alloc: Global, times: Vec<u64>) -> Result<Self, AllocError>
        requires { IsStrictlyIncreasing times.items }
        ensures { IfOk result (λ kept. kept ≡ times.items) }
    {
        let list = ShortQueue::from_vec(alloc, times)?;
        Ok(Times { list })
    }

    pub fn into_vec(self, alloc: Global) -> Result<Vec<u64>, AllocError>
        ensures { IfOk result (λ times. times.items ≡ self) }
    {
        self.list.to_vec(alloc)
    }

    pub fn copy(&self, alloc: Global) -> Result<Self, AllocError>
        ensures { IfOk result (λ copy. copy ≡ self.now) }
    {
        let times = self.list.to_vec(alloc)?;
        let list = ShortQueue::from_vec(alloc, times)?;
        Ok(Times { list })
    }
}
