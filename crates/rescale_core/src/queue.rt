//! What waits for one worker.
ghost use Rattle.std.specs.Prelude.{◌≡◌, ◌++◌, ◌∷◌, ◌≤◌, [], IfOk, length, sum_by};
ghost use Rattle.std.specs.List.{list_all, position};
ghost use Rattle.rescale_core.specs.Queues.{queue_filled, is_clear};
ghost use Rattle.rescale_core.specs.Slots.{TakesOut, awaited, first_ends, lacks, ready_of, sure, weight_of};
ghost use Rattle.rescale_core.specs.Waiting.{is_short};
ghost use Rattle.rescale_core.specs.declared.slot.Slot.TheVariants.{Ready};

use crate::limits::MOST_WAITING;
use crate::slot::Slot;
use rescale_worker::{BoxedPiece, BoxedStrategy, Item};
use std::alloc::{AllocError, Global};
use std::collections::VecDeque;
use std::marker::Model;
use std::mem;

/// The items that were not handed over, and pieces that are awaited.
#[derive(Drop)]
pub(crate) struct Queue {
    // what stands before the first place
    front: VecDeque<Item>,
    // the first place, and what stands behind it
    slots: VecDeque<Slot>,
    // how many slices, parts and places the slots are
    behind: u64,
}

impl Model for Queue {
    ghost use Rattle.std.specs.Prelude.{◌≡◌, ◌++◌, List, sum_by};
    ghost use Rattle.rescale_core.specs.Slots.{sure, weight_of};
    ghost use Rattle.rescale_core.specs.declared.slot.Slot.{Slot};

    ghost Value = { List Slot };

    ghost view = { λ q. sure q.front.items ++ q.slots.items };

    ghost invariant = { λ q. q.behind ≡ sum_by weight_of q.slots.items };
}

impl Queue {
    pub(crate) fn new(alloc: Global) -> Self
        ensures { result ≡ [] }
    {
        Queue {
            front: VecDeque::new(alloc),
            slots: VecDeque::new(alloc),
            behind: 0,
        }
    }

    pub(crate) fn push(&mut self, item: Item) -> Result<(), AllocError>
        ensures { IfOk result (λ _. self.new ≡ self.old ++ Ready item ∷ []) }
    {
        if !self.slots.is_empty() {
            return self.append(Slot::Ready(item));
        }
        self.front.reserve(1)?;
        self.front.push_back_reserved(item);
        Ok(())
    }

    /// Awaits so many pieces of the generation, whose strategy is `now`.
    pub(crate) fn push_place(
        &mut self,
        generation: u64,
        now: &BoxedStrategy,
        count: u32,
    ) -> Result<(), AllocError>
        ensures { IfOk result (λ _. self.new ≡ self.old ++ awaited generation now.now count) }
    {
        for j in 0..count {
            let now = now.shared()?;
            self.append(Slot::Awaited {
                generation,
                now,
                last: j + 1 == count,
                piece: None,
            })?;
        }
        Ok(())
    }

    fn append(&mut self, slot: Slot) -> Result<(), AllocError>
        ensures { IfOk result (λ _. self.new ≡ self.old ++ slot ∷ []) }
    {
        let weight = slot.weight();
        self.slots.push_back(slot)?;
        self.behind += weight;
        Ok(())
    }

    /// Takes out what stands before the first place, unless that is more than wanted. As much room is kept for what
    /// comes next, if there is memory.
    pub(crate) fn take_front(&mut self, alloc: Global, most: u64) -> Vec<Item>
        ensures few { length result.items ≤ most }
        ensures taken { self.old ≡ sure result.items ++ self.new }
    {
        if self.front.len() as u64 > most {
            return Vec::new(alloc);
        }
        let room = VecDeque::with_capacity(alloc, self.front.len());
        mem::replace(&mut self.front, room.unwrap_or(VecDeque::new(alloc))).into_vec()
    }

    /// The first item, unless it is a piece that is missing.
    pub(crate) fn pop(&mut self) -> Option<Item>
        ensures { TakesOut self.old result self.new }
    {
        if !self.front.is_empty() {
            return self.front.pop_front();
        }
        let first = self.slots.front()?;
        if !first.is_there() {
            return None;
        }
        let slot = self.slots.pop_front()?;
        self.behind -= slot.weight();
        slot.into_item()
    }

    /// Puts the piece where the first of its generation is missing.
    pub(crate) fn fill(&mut self, piece: BoxedPiece)
        ensures { self.new ≡ queue_filled piece self.old }
    {
        let found = first_lacking(&self.slots, piece.get().generation);
        let Some(at) = found else {
            return;
        };
        let slot = &mut self.slots[at];
        slot.put(piece);
    }

    /// Whether the first one is the last of a place.
    pub(crate) fn first_ends(&self) -> bool
        ensures { result ≡ first_ends self.now }
    {
        if !self.front.is_empty() {
            return false;
        }
        match self.slots.front() {
            Some(slot) => slot.ends_place(),
            None => false,
        }
    }

    /// How many items may be handed over.
    pub(crate) fn ready(&self) -> u64
        ensures { result ≡ length (ready_of self.now) }
    {
        (self.front.len() + ready_len(&self.slots)) as u64
    }

    /// How many slices, parts and places wait.
    pub(crate) fn waiting(&self) -> u64
        ensures { result ≡ sum_by weight_of self.now }
    {
        self.front.len() as u64 + self.behind
    }

    /// Whether there is room for more.
    pub(crate) fn is_short(&self) -> bool
        ensures { result ≡ is_short self.now }
    {
        self.waiting() < MOST_WAITING
    }

    /// Whether nothing is there.
    pub(crate) fn is_empty(&self) -> bool
        ensures { result ≡ is_clear self.now }
    {
        self.front.is_empty() && self.slots.is_empty()
    }
}

// The place of the first missing piece of the generation.
fn first_lacking(slots: &VecDeque<Slot>, generation: u64) -> Option<usize>
    ensures { result ≡ position (lacks generation) slots.now.items }
{
    slots.iter().position(|slot| slot.lacks(generation))
}

// How many come before the first missing piece, and no further than to the end of the first place.
fn ready_len(slots: &VecDeque<Slot>) -> usize
    ensures { result ≡ length (ready_of slots.now.items) }
{
    for i in 0..slots.len() {
        let slot = &slots[i];
        if !slot.is_there() {
            return i;
        }
        if slot.ends_place() {
            return i + 1;
        }
    }
    slots.len()
}

/// Whether there is room for more in each queue.
pub(crate) fn all_short(queues: &[Queue]) -> bool
    ensures { result ≡ list_all is_short queues.now }
{
    queues.iter().all(|queue| queue.is_short())
}

/// Whether nothing stands in any queue.
pub(crate) fn none_wait(queues: &[Queue]) -> bool
    ensures { result ≡ list_all is_clear queues.now }
{
    queues.iter().all(|queue| queue.is_empty())
}
