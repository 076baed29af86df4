//! What each side knows of the cells. Of `Line` and `View` no value is made: clauses speak of them.

use std::collections::LinkedList;

/// A work, and what lies beside it.
#[derive(Drop)]
pub struct Cell<W, I, O> {
    pub work: W,
    /// How many items were handed over last.
    pub count: u64,
    /// The items that were handed over and not taken.
    pub items: Vec<I>,
    /// How many items were taken in all, where these are fewer than 2^64.
    pub taken: u64,
    /// What was given and main does not have.
    pub outs: Vec<O>,
}

/// What main knows of a cell.
pub struct Line<S, I, O> {
    /// The seed of its work.
    pub seed: S,
    /// All items that were handed over.
    pub handed: LinkedList<I>,
    /// All outs that came back.
    pub back: LinkedList<O>,
    /// How many items were handed over last.
    pub last: u64,
    /// Main left the turn with itself.
    pub mine: bool,
}

/// What main or a hand knows.
pub struct View<W, S, I, O> {
    /// Main's: what it knows of each cell.
    pub lines: LinkedList<Line<S, I, O>>,
    /// Main's: how many hands were made.
    pub made: u64,
    /// How often it looked whose turn it is.
    pub looks: u64,
    /// The cell of the last look.
    pub cell: u64,
    /// The word that the last look found (`specs/Words`).
    pub word: u64,
    /// A hand's: the number of its cell.
    pub number: Option<u64>,
    /// A hand's: how many items lay in the cell when it last gave one back.
    pub worked: u64,
    /// The word that it left when it last gave a cell back.
    pub left: u64,
    /// A hand's: the cell as it last gave it back.
    pub gave_back: Option<Cell<W, I, O>>,
    /// The cell that it has, as it was found.
    pub has: Option<Cell<W, I, O>>,
}
