//! What a monitor keeps, as plain data, and what one worker hands to another of it.

use eval_bool::{JoinData, OrData};
use eval_since::{PrevData, SinceData};
use eval_until::{NextData, UntilData};
use mfotl_model::Interval;
use relations::Table;

/// What a monitor keeps: how many time-points were taken, how many tables were given, the timestamps from the
/// earliest place on that a node asks for, and an entry for each node of the core, operands first.
#[derive(Drop)]
pub struct State {
    pub taken: u64,
    pub given: u64,
    pub times: Vec<u64>,
    pub nodes: Vec<NodeData>,
}

/// What a node keeps.
#[derive(Drop)]
pub enum NodeData {
    /// An atom, EXISTS, or what is the same at each position: they keep nothing.
    Bare,
    Join(JoinData),
    Or(OrData),
    Previous(PrevData),
    Next(NextData),
    /// A SINCE or an UNTIL.
    Window(WindowData),
    /// A conjunction whose right side is asked for the left one's rows: the left side's tables that were not used, and
    /// the window.
    Filter(Vec<Table>, WindowData),
}

/// What a SINCE or an UNTIL keeps.
#[derive(Drop)]
pub enum WindowData {
    Since(SinceKept),
    Until(UntilKept),
}

/// What a SINCE keeps, with its interval and the columns of its rows: the right operand's.
#[derive(Drop)]
pub struct SinceKept {
    pub interval: Interval,
    pub columns: Vec<u32>,
    pub kept: SinceData,
}

/// What an UNTIL keeps, with the columns of its rows: the left operand's for the starts of its runs, the right
/// one's for the others.
#[derive(Drop)]
pub struct UntilKept {
    pub left: Vec<u32>,
    pub right: Vec<u32>,
    pub kept: UntilData,
}

/// What the worker `from` keeps for the rows that are also near to the worker `to` under the next strategy. The
/// generation is that of the next strategy, and `count` is how many workers the present one has.
#[derive(Drop)]
pub struct Piece {
    pub generation: u64,
    pub from: u32,
    pub to: u32,
    pub count: u32,
    pub state: State,
}
