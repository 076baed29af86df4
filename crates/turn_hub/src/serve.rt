//! A hand's side: working what was handed over.

ghost use Rattle.std.specs.Prelude.{◌≡◌, ◌++◌, List, [], ◌∷◌, IfErr, IfOk};
ghost use Rattle.turn_hub.specs.Work.{Takes, Leads};
ghost use Rattle.turn_hub.specs.Ends.{IsHandOf, hand_cell, hand_view};
ghost use Rattle.turn_hub.specs.Answers.{ServedAs};

use crate::hub::{Hand, Hub, Served};
use crate::plays::{GiveBack, HandLook};
use crate::turns::{BROKEN, HAND_TURN, MAIN_TURN};
use crate::view::Cell;
use crate::work::Work;
use mon_outside::Gate;
use std::alloc::{AllocError, Global};
use std::mem;

// Works the item, once the gate let it pass.
fn work_one<W: Work, G: Gate>(
    alloc: Global,
    cell: &mut Cell<W, W::Item, W::Out>,
    gate: &G,
    number: u32,
    item: W::Item,
) -> Result<(), AllocError>
    requires { Takes W.stands W.may cell.old.work (item ∷ []) }
    ensures count { IfOk result (λ _. cell.new.count ≡ cell.old.count) }
    ensures did { IfOk result (λ _. (gave : List W.Out) × (cell.new.outs.items ≡ cell.old.outs.items ++ gave)
        × Leads W.stands W.may cell.old.work (item ∷ []) cell.new.work gave) }
    ensures failed { IfErr result (λ _. W.refused cell.new.work) }
{
    gate.pass(number, cell.taken);
    cell.taken = cell.taken.saturating_add(1);
    cell.work.work(alloc, item, &mut cell.outs)
}

// Takes the items out of the cell. It takes no memory.
fn take_items<W, I, O>(alloc: Global, cell: &mut Cell<W, I, O>) -> Vec<I>
    ensures items { result.items ≡ cell.old.items.items }
    ensures cell { (cell.new.work ≡ cell.old.work) × (cell.new.count ≡ cell.old.count)
        × (cell.new.outs.items ≡ cell.old.outs.items) }
{
    mem::replace(&mut cell.items, Vec::new(alloc))
}

// Works the cell's items in order.
fn work_all<W: Work, G: Gate>(
    alloc: Global,
    cell: &mut Cell<W, W::Item, W::Out>,
    gate: &G,
    number: u32,
) -> Result<(), AllocError>
    requires { Takes W.stands W.may cell.old.work cell.old.items.items }
    ensures count { IfOk result (λ _. cell.new.count ≡ cell.old.count) }
    ensures did { IfOk result (λ _. (gave : List W.Out) × (cell.new.outs.items ≡ cell.old.outs.items ++ gave)
        × Leads W.stands W.may cell.old.work cell.old.items.items cell.new.work gave) }
    ensures failed { IfErr result (λ _. W.refused cell.new.work) }
{
    let items = take_items(alloc, cell);
    for item in items {
        work_one(alloc, cell, gate, number, item)?;
    }
    Ok(())
}

impl<W: Work> Hub<W> {
    /// Takes all items that were handed over, in order, and gives the turn back. The gate is passed before each
    /// item with the cell's number and the item's number in that cell, counted from 0. Waits for nobody.
    pub fn serve<G: Gate>(&self, alloc: Global, hand: &mut Hand<W>, gate: &G) -> Served
        requires hand { IsHandOf self.now hand.old }
        ensures hand { IsHandOf self.now hand.new × (hand_cell hand.new ≡ hand_cell hand.old) }
        ensures did { ServedAs W.refused (hand_view hand.old) (hand_cell hand.old) result (hand_view hand.new) }
    {
        let shared = &self.table.shared;
        let place = hand.cell as usize;
        let found = shared.load::<HandLook<W>>(&mut hand.seat, place);
        if found != HAND_TURN {
            return Served::NotGiven;
        }
        let mut cell = self.take_cell(&mut hand.seat, place);
        let given = cell.items.len() as u64;
        let done = work_all(alloc, &mut cell, gate, hand.cell);
        self.put_cell(&mut hand.seat, place, cell);
        match done {
            Ok(()) => {
                shared.store::<GiveBack>(&mut hand.seat, place, MAIN_TURN);
                Served::Worked(given)
            }
            Err(_) => {
                shared.store::<GiveBack>(&mut hand.seat, place, BROKEN);
                Served::Memory
            }
        }
    }
}
