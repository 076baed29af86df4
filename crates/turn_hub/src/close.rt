//! How a hub is closed.

ghost use Rattle.std.specs.Prelude.{◌≡◌, ◌≤◌, [], vec_capacity, All, IfOk};
ghost use Rattle.std.specs.Mem.Slots.{slots_items, slots_len, IsFull};
ghost use Rattle.turn_hub.specs.Ends.{IsMainOf, IsHandOf, AllMine, AllHaveCells, HaveWorks, StandEach, main_view};

use crate::hub::{Hand, Hub, Main};
use crate::plays::{JoinHand, Place};
use crate::work::Work;
use atomic_table::Closed;
use std::alloc::{AllocError, Global};

// Takes the work out of each slot.
fn works_of<W: Work>(mut closed: Closed<Place<W>, Global>, works: &mut Vec<W>)
    requires full { IsFull closed.slots × AllHaveCells (slots_items closed.slots) }
    requires room { (works.old.items ≡ []) × (slots_len closed.slots ≤ vec_capacity works.old) }
    ensures { HaveWorks (slots_items closed.slots) works.new.items }
{
    for k in 0..closed.slot_count() {
        match closed.take(k) {
            Some(cell) => works.push_reserved(cell.work),
            None => unreachable!(),
        }
    }
    closed.free();
}

impl<W: Work> Hub<W> {
    // Main takes the hands in.
    fn join_hands(&self, main: &mut Main<W>, hands: Vec<Hand<W>>)
        requires main { IsMainOf self.now main.old }
        requires hands { All (λ h. IsHandOf self.now h) hands.items }
        ensures { IsMainOf self.now main.new × (main_view main.new ≡ main_view main.old) }
    {
        for hand in hands {
            self.table
                .shared
                .join_seat::<JoinHand>(&mut main.seat, hand.seat);
        }
    }

    /// The works, in the order of the cells. The hands are given up.
    pub fn close(
        self,
        alloc: Global,
        mut main: Main<W>,
        hands: Vec<Hand<W>>,
    ) -> Result<Vec<W>, AllocError>
        requires main { IsMainOf self main × AllMine (main_view main) }
        requires hands { All (λ h. IsHandOf self h) hands.items }
        ensures { IfOk result (λ works. StandEach W.stands (main_view main).lines works.items) }
    {
        let mut works = Vec::with_capacity(alloc, self.table.slot_count())?;
        self.join_hands(&mut main, hands);
        let Hub { table, alloc: _ } = self;
        let closed = table.close_with(main.seat);
        works_of(closed, &mut works);
        Ok(works)
    }
}
