//! The rule of the table of words and cells, and what each step on it tells.

ghost use Rattle.turn_hub.specs.Rule.{Ruled};
ghost use Rattle.turn_hub.specs.Steps.{first_view, one_more, new_hand, joined, spent, main_looks, hand_looks};
ghost use Rattle.turn_hub.specs.Steps.{hands_over, gives_back};

use crate::view::{Cell, View};
use crate::work::Work;
use atomic_table::{Join, Play, Split, TableRule};
use std::marker::PhantomData;
use std::snapshot::Snapshot;

/// What lies at a place of the table: a cell, or nothing while main or a hand has it.
pub type Place<W> = Option<Cell<W, <W as Work>::Item, <W as Work>::Out>>;

/// What main or a hand is seen to know of the cells.
pub type Sight<W> = View<W, <W as Work>::Seed, <W as Work>::Item, <W as Work>::Out>;

/// The rule that holds of words, cells and views between any two steps.
pub struct Turns<W> {
    work: PhantomData<W>,
}

impl<W: Work> TableRule<Place<W>, Sight<W>, Snapshot<Vec<W>>> for Turns<W> {
    ghost holds = { λ _. Ruled W.stands W.may W.refused };

    ghost first = { λ key. first_view W.seed key.value.items };
}

/// Main looks at a word.
pub struct MainLook<W> {
    work: PhantomData<W>,
}

impl<W: Work> Play<Place<W>, Sight<W>> for MainLook<W> {
    ghost then = { main_looks W.stands };
}

/// A hand looks at its word.
pub struct HandLook<W> {
    work: PhantomData<W>,
}

impl<W: Work> Play<Place<W>, Sight<W>> for HandLook<W> {
    ghost then = { hand_looks W.stands W.may };
}

/// Main hands a cell over: it changes its word.
pub struct HandOver;

impl<W, S, I, O> Play<Option<Cell<W, I, O>>, View<W, S, I, O>> for HandOver {
    ghost then = { hands_over };
}

/// A hand gives its cell back: it changes its word.
pub struct GiveBack;

impl<W, S, I, O> Play<Option<Cell<W, I, O>>, View<W, S, I, O>> for GiveBack {
    ghost then = { gives_back };
}

/// A hand is made out of what main knows.
pub struct MakeHand;

impl<W, S, I, O> Split<View<W, S, I, O>> for MakeHand {
    ghost left = { one_more };

    ghost right = { new_hand };
}

/// What a hand knows comes back to main.
pub struct JoinHand;

impl<W, S, I, O> Join<View<W, S, I, O>> for JoinHand {
    ghost both = { joined };

    ghost spent = { spent };
}
