//! Puts the Rows of all workers of a time-point together.
ghost use Rattle.std.specs.Prelude.{◌≡◌, ◌++◌, ◌∷◌, [], ◌<◌, ◌≤◌, IfOk, IsFalse, option_copied};
ghost use Rattle.std.specs.List.{find, list_any};
ghost use Rattle.std.specs.Option.{is_some};
ghost use Rattle.verdict_merge.specs.Gathers.{complete_ts, is_from, is_generation, workers_in};
ghost use Rattle.verdict_merge.specs.Emitted.{Emits};

use crate::rows::{Begun, Rows, Verdict};
use crate::waiting::Waiting;
use std::alloc::{AllocError, Global};
use std::marker::Model;

/// Gathers what the workers say of each time-point. Time-points are numbered from 0, and their verdicts come in
/// this order.
#[derive(Drop)]
pub struct Gather {
    begun: Vec<Begun>,
    waiting: Waiting,
}

impl Model for Gather {
    ghost use Rattle.verdict_merge.specs.Gathers.{GatherOf};
    ghost use Rattle.verdict_merge.specs.Generations.{AreBegun};

    ghost Value = { GatherOf };

    ghost view = { λ g. record { begun = g.begun.items; next = g.waiting.next; added = g.waiting.added } };

    ghost invariant = { λ g. AreBegun g.begun.items };
}

impl Gather {
    /// No generation is begun. It takes no memory.
    pub fn new(alloc: Global) -> Self
        ensures { result ≡ record { begun = []; next = 0; added = [] } }
    {
        Gather {
            begun: Vec::new(alloc),
            waiting: Waiting::new(alloc),
        }
    }

    /// Begins a generation with so many workers, which are numbered from 0.
    pub fn begin(&mut self, generation: u64, workers: u32) -> Result<(), AllocError>
        requires new { workers_in self.old.begun generation ≡ 0 }
        requires some { 0 < workers }
        ensures { IfOk result (λ _. self.new ≡ record {
          begun = self.old.begun ++ record { generation = generation; workers = workers } ∷ [];
          next = self.old.next;
          added = self.old.added;
        }) }
    {
        self.begun.push(Begun {
            generation,
            workers,
        })?;
        Ok(())
    }

    /// Adds what a worker says of a time-point that has no verdict yet. Where memory runs out, Rows that wait may be
    /// lost.
    pub fn add(&mut self, rows: Rows) -> Result<(), AllocError>
        requires worker { rows.worker < workers_in self.old.begun rows.generation }
        requires once { IsFalse (list_any (is_from rows) self.old.added) }
        requires ahead { self.old.next ≤ rows.point }
        ensures { IfOk result (λ _. self.new ≡ record {
          begun = self.old.begun;
          next = self.old.next;
          added = self.old.added ++ rows ∷ [];
        }) }
    {
        self.waiting.push(rows)?;
        Ok(())
    }

    /// The verdict on the next time-point, where the Rows of all workers are there. Where memory runs out, Rows
    /// that wait may be lost. The last time-point number counts as want of memory.
    pub fn emit(&mut self, alloc: Global) -> Result<Option<Verdict>, AllocError>
        ensures { IfOk result (λ verdict. Emits self.old verdict self.new) }
    {
        let Some(ts) = self.complete_ts() else {
            return Ok(None);
        };
        let point = self.waiting.next();
        let rows = self.waiting.take(alloc)?;
        Ok(Some(Verdict { point, ts, rows }))
    }

    /// Whether there is a verdict on the next time-point. It takes no memory.
    pub fn is_ready(&self) -> bool
        ensures { result ≡ is_some (complete_ts self.now) }
    {
        self.complete_ts().is_some()
    }

    // The generation of this number, if it is begun. Mostly it is the last one, so the search goes from there.
    fn generation(&self, number: u64) -> Option<&Begun>
        ensures { option_copied result ≡ find (is_generation number) self.now.begun }
    {
        self.begun
            .iter()
            .rev()
            .find(|begun| begun.generation == number)
    }

    // How many workers a generation has, 0 where it isn't begun.
    fn workers(&self, generation: u64) -> u32
        ensures { result ≡ workers_in self.now.begun generation }
    {
        match self.generation(generation) {
            Some(begun) => begun.workers,
            None => 0,
        }
    }

    // The timestamp of the next time-point, where the Rows of all workers are there.
    fn complete_ts(&self) -> Option<u64>
        ensures { result ≡ complete_ts self.now }
    {
        let first = self.waiting.first()?;
        if self.waiting.count() == self.workers(first.generation) as usize {
            Some(first.ts)
        } else {
            None
        }
    }
}
