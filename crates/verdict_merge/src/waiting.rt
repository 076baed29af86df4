//! The Rows that wait. Those of a time-point are found without a search.
ghost use Rattle.std.specs.Prelude.{◌≡◌, ◌++◌, ◌∷◌, [], ◌+◌, ◌≤◌, IfOk, length, option_copied};
ghost use Rattle.std.specs.List.{find};
ghost use Rattle.mfotl_model.specs.Ascending.{ascending};
ghost use Rattle.mfotl_model.specs.Values.{row_cmp};
ghost use Rattle.verdict_merge.specs.Gathers.{gathered_rows, at_point, rows_after, rows_at};

use crate::arrived::Arrived;
use crate::group::Group;
use crate::rows::Rows;
use crate::slots::{front, pop, put, slot_rows};
use mfotl_model::RowList;
use std::alloc::{AllocError, Global};
use std::collections::VecDeque;
use std::marker::Model;

// The slots are those of the time-points from the next one on, in order.
#[derive(Drop)]
pub(crate) struct Waiting {
    alloc: Global,
    next: u64,
    // how many Rows came so far
    came: u64,
    slots: VecDeque<Option<Group>>,
}

impl Model for Waiting {
    ghost use Rattle.std.specs.Prelude.{map};
    ghost use Rattle.verdict_merge.specs.Slots.{AreSlots, WaitingOf, held, by_numbers, all_held};

    ghost Value = { WaitingOf };

    ghost view = { λ w. record { next = w.next; added = by_numbers w.came (all_held (map held w.slots.items)) } };

    ghost invariant = { λ w. AreSlots w.came w.next (map held w.slots.items) };
}

impl Waiting {
    pub(crate) fn new(alloc: Global) -> Self
        ensures { result ≡ record { next = 0; added = [] } }
    {
        Waiting {
            alloc,
            next: 0,
            came: 0,
            slots: VecDeque::new(alloc),
        }
    }

    // The number of the next time-point.
    pub(crate) fn next(&self) -> u64
        ensures { result ≡ self.now.next }
    {
        self.next
    }

    // Puts Rows after all that wait. Where memory runs out in between, none wait any more.
    pub(crate) fn push(&mut self, rows: Rows) -> Result<(), AllocError>
        requires { self.old.next ≤ rows.point }
        ensures { IfOk result (λ _. self.new ≡ record {
          next = self.old.next;
          added = self.old.added ++ rows ∷ [];
        }) }
    {
        let came = self.came.checked_add(1).ok_or(AllocError)?;
        let index = rows.point - self.next;
        let arrived = Arrived {
            number: self.came,
            rows,
        };
        let Ok(()) = put(&mut self.slots, self.alloc, index as usize, arrived) else {
            self.slots.clear();
            return Err(AllocError);
        };
        self.came = came;
        Ok(())
    }

    // The first Rows of the next time-point.
    pub(crate) fn first(&self) -> Option<&Rows>
        ensures { option_copied result ≡ find (at_point self.now.next) self.now.added }
    {
        match front(&self.slots) {
            Some(group) => Some(group.first()),
            None => None,
        }
    }

    // How many Rows of the next time-point wait.
    pub(crate) fn count(&self) -> usize
        ensures { result ≡ length (rows_at self.now.next self.now.added) }
    {
        match front(&self.slots) {
            Some(group) => group.len(),
            None => 0,
        }
    }

    // Takes the Rows of the next time-point out: all their rows in ascending order, each once.
    pub(crate) fn take(&mut self, alloc: Global) -> Result<RowList, AllocError>
        ensures rows { IfOk result (λ rows.
            rows ≡ ascending row_cmp (gathered_rows (rows_at self.old.next self.old.added))) }
        ensures left { IfOk result (λ _. self.new ≡ record {
          next = self.old.next + 1;
          added = rows_after self.old.next self.old.added;
        }) }
    {
        let after = self.next.checked_add(1).ok_or(AllocError)?;
        let first = pop(&mut self.slots);
        self.next = after;
        let rows = slot_rows(alloc, first)?;
        Ok(rows)
    }
}
