//! How a hub is opened.

ghost use Rattle.std.specs.Prelude.{◌≡◌, ◌<◌, ◌≤◌, ◌^◌, ℕ, [], length, vec_capacity, map, All, IfOk};
ghost use mathlib.Core.Option.{some};
ghost use lib.ListN.{get_elem?};
ghost use Rattle.atomic_table.specs.Table.{opening};
ghost use Rattle.turn_hub.specs.Rule.{Ruled};
ghost use Rattle.turn_hub.specs.Steps.{first_view, one_more, started};
ghost use Rattle.turn_hub.specs.Ends.{IsMainOf, IsHandOf, AreHands, AreInOrder, IsFresh, Starts, cell_count};
ghost use Rattle.turn_hub.specs.Ends.{hand_cell, main_view};

use crate::hub::{Hand, Hub, Main};
use crate::plays::{MakeHand, Place};
use crate::turns::MAIN_TURN;
use crate::view::Cell;
use crate::work::Work;
use atomic_table::{Refused, Table};
use std::alloc::{AllocError, Global};
use std::snapshot::Snapshot;

// A cell with this work, with nothing handed over.
fn fresh<W, I, O>(alloc: Global, work: W) -> Cell<W, I, O>
    ensures { (result.work ≡ work) × (result.count ≡ 0) × (result.outs.items ≡ []) }
{
    Cell {
        work,
        count: 0,
        items: Vec::new(alloc),
        taken: 0,
        outs: Vec::new(alloc),
    }
}

// A cell for each work, with nothing handed over.
fn cells<W: Work>(alloc: Global, works: Vec<W>) -> Result<Vec<Place<W>>, AllocError>
    ensures { IfOk result (λ v. (length v.items ≡ length works.items)
        × ((k : ℕ) (w : W) → get_elem? works.items k ≡ some w → IsFresh v.items k w)) }
{
    let mut slots = Vec::with_capacity(alloc, works.len())?;
    for work in works {
        slots.push_reserved(Some(fresh(alloc, work)));
    }
    Ok(slots)
}

impl<W: Work> Hub<W> {
    // A hub over these words and slots, with no hands.
    fn over(
        alloc: Global,
        words: &[u64],
        slots: Vec<Place<W>>,
        about: &Snapshot<Vec<W>>,
    ) -> Result<(Hub<W>, Main<W>), AllocError>
        requires rule { Ruled W.stands W.may W.refused
            (opening words.now slots.items (first_view W.seed about.now.value.items)) }
        requires sizes { (length words.now ≡ length slots.items) × (length about.now.value.items ≡ length slots.items) }
        ensures { IfOk result (λ r. (cell_count r.0 ≡ length slots.items) × IsMainOf r.0 r.1
            × (main_view r.1 ≡ first_view W.seed about.now.value.items)) }
    {
        match Table::new(alloc, words, slots, about) {
            Ok((table, seat)) => Ok((Hub { table, alloc }, Main { seat })),
            Err(Refused { slots: _ }) => Err(AllocError),
        }
    }

    // A hub with no hands.
    fn without_hands(alloc: Global, works: Vec<W>) -> Result<(Hub<W>, Main<W>), AllocError>
        requires starts { Starts W.stands W.seed works.items }
        ensures { IfOk result (λ r. (cell_count r.0 ≡ length works.items) × IsMainOf r.0 r.1
            × (main_view r.1 ≡ first_view W.seed works.items)) }
    {
        let about = Snapshot::of(&works);
        let words = Vec::from_elem(alloc, MAIN_TURN, works.len())?;
        let slots = cells(alloc, works)?;
        Hub::over(alloc, words.as_slice(), slots, &about)
    }

    // The next hand, whose cell has this number.
    fn next_hand(&self, main: &mut Main<W>, number: u32) -> Hand<W>
        requires { IsMainOf self.now main.old × ((main_view main.old).made ≡ number) × (number < cell_count self.now) }
        ensures main { IsMainOf self.now main.new × (main_view main.new ≡ one_more (main_view main.old)) }
        ensures hand { (hand_cell result ≡ number) × IsHandOf self.now result }
    {
        let seat = self.table.shared.split_seat::<MakeHand>(&mut main.seat);
        Hand { seat, cell: number }
    }

    // A hand for each cell, in the order of the cells.
    fn all_hands(&self, main: &mut Main<W>, count: u32, hands: &mut Vec<Hand<W>>)
        requires main { IsMainOf self.now main.old × ((main_view main.old).made ≡ 0) × (count ≡ cell_count self.now) }
        requires room { (hands.old.items ≡ []) × (count ≤ vec_capacity hands.old) }
        ensures main { IsMainOf self.now main.new × ((main_view main.new).lines ≡ (main_view main.old).lines) }
        ensures hands { (length hands.new.items ≡ count) × AreHands self.now hands.new.items }
    {
        for number in 0..count {
            hands.push_reserved(self.next_hand(main, number));
        }
    }

    /// A cell and a hand for each work, in the order of the works. All turns are main's.
    pub fn open(alloc: Global, works: Vec<W>) -> Result<(Hub<W>, Main<W>, Vec<Hand<W>>), AllocError>
        requires count { (0 < length works.items) × (length works.items < 2 ^ 32) }
        requires starts { Starts W.stands W.seed works.items }
        ensures main { IfOk result (λ r. (cell_count r.0 ≡ length works.items) × IsMainOf r.0 r.1
            × ((main_view r.1).lines ≡ map (λ w. started (W.seed w)) works.items)) }
        ensures hands { IfOk result (λ r. (length r.2.items ≡ length works.items) × AreInOrder r.2.items
            × All (λ h. IsHandOf r.0 h) r.2.items) }
    {
        let count = works.len() as u32;
        let mut hands = Vec::with_capacity(alloc, works.len())?;
        let (hub, mut main) = Hub::without_hands(alloc, works)?;
        hub.all_hands(&mut main, count, &mut hands);
        Ok((hub, main, hands))
    }
}
