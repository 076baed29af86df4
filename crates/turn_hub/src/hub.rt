//! The hub, and the ends of main and of the hands.

ghost use Rattle.std.specs.Prelude.{◌≡◌};

use crate::plays::{Place, Sight, Turns};
use crate::work::Work;
use atomic_table::{Seat, Table};
use std::alloc::Global;
use std::snapshot::Snapshot;

/// Cells that are numbered from 0. Of each either main or its hand has the turn.
#[derive(Drop)]
pub struct Hub<W: Work> {
    pub(crate) table: Table<Place<W>, Sight<W>, Snapshot<Vec<W>>, Turns<W>, Global>,
    pub(crate) alloc: Global,
    ghost sized: { table.shared.table_id.words ≡ table.shared.table_id.slots },
}

/// Main's end of a hub.
#[derive(Drop)]
pub struct Main<W: Work> {
    pub(crate) seat: Seat<Place<W>, Sight<W>>,
}

/// The end of a cell for the thread that serves it.
#[derive(Drop)]
pub struct Hand<W: Work> {
    pub(crate) seat: Seat<Place<W>, Sight<W>>,
    pub(crate) cell: u32,
}

/// What a swap found.
#[derive(Drop)]
pub enum Swap<I, O> {
    /// How many items were handed over last, and what all of them gave. The new items are handed over.
    Back(u64, Vec<O>),
    /// It was the hand's turn. The items come back.
    NotYet(Vec<I>),
    /// The cell is broken. The items come back.
    Broken(Vec<I>),
}

/// What a hand did.
#[derive(Clone, Copy)]
pub enum Served {
    /// It took so many items, all that were handed over, and gave the turn back.
    Worked(u64),
    /// It was main's turn.
    NotGiven,
    /// Memory was refused at an item. The cell is broken from now on.
    Memory,
}
