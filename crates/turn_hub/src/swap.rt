//! Main's side: taking back and handing over.

ghost use Rattle.std.specs.Prelude.{◌≡◌, ◌≢◌, ◌⊎◌, ◌<◌, [], length};
ghost use Rattle.turn_hub.specs.Words.{main_turn, hand_turn};
ghost use Rattle.turn_hub.specs.Ends.{IsMainOf, cell_count, main_view};
ghost use Rattle.turn_hub.specs.Answers.{Swapped, MayHand};

use crate::hub::{Hub, Main, Swap};
use crate::plays::{HandOver, MainLook};
use crate::turns::{HAND_TURN, MAIN_TURN};
use crate::view::Cell;
use crate::work::Work;
use std::mem;

// Whose turn it is after so many items were handed over.
fn turn_after(given: u64) -> u64
    ensures { ((result ≡ main_turn) × (given ≡ 0)) ⊎ ((result ≡ hand_turn) × (given ≢ 0)) }
{
    if given == 0 { MAIN_TURN } else { HAND_TURN }
}

// Lays the items into the cell, and takes out the count and the outs that it has.
fn refill<W, I: Drop, O>(cell: &mut Cell<W, I, O>, items: Vec<I>, none: Vec<O>) -> (u64, Vec<O>)
    ensures result { result ≡ (cell.old.count, cell.old.outs) }
    ensures cell { (cell.new.work ≡ cell.old.work) × (cell.new.items ≡ items) × (cell.new.outs ≡ none)
        × (cell.new.count ≡ length items.items) }
{
    let count = mem::replace(&mut cell.count, items.len() as u64);
    cell.items = items;
    (count, mem::replace(&mut cell.outs, none))
}

impl<W: Work> Hub<W> {
    /// Takes back all that the cell gave, and hands the items over. Without items the turn stays main's.
    /// Waits for nobody, and takes no memory.
    pub fn swap(
        &self,
        main: &mut Main<W>,
        number: u32,
        items: Vec<W::Item>,
    ) -> Swap<W::Item, W::Out>
        requires main { IsMainOf self.now main.old × (number < cell_count self.now) }
        requires may { MayHand W.may (main_view main.old) number items.items }
        ensures main { IsMainOf self.now main.new }
        ensures did { Swapped W.told number items.items (main_view main.old) result (main_view main.new) }
    {
        let shared = &self.table.shared;
        let place = number as usize;
        let found = shared.load::<MainLook<W>>(&mut main.seat, place);
        if found == HAND_TURN {
            return Swap::NotYet(items);
        }
        if found != MAIN_TURN {
            return Swap::Broken(items);
        }
        let mut cell = self.take_cell(&mut main.seat, place);
        let turn = turn_after(items.len() as u64);
        let (count, outs) = refill(&mut cell, items, Vec::new(self.alloc));
        self.put_cell(&mut main.seat, place, cell);
        shared.store::<HandOver>(&mut main.seat, place, turn);
        Swap::Back(count, outs)
    }
}
