//! What workers are handed, and what they give.
use crate::boxed::{BoxedPiece, BoxedStrategy};
use mfotl_model::TimePoint;
use slice_strategy::Strategy;
use verdict_merge::Rows;

/// What a worker is handed.
#[derive(Drop)]
pub enum Item {
    /// What it gets of a time-point.
    Slice {
        /// How many changes were read before the time-point.
        generation: u64,
        /// The number of the time-point.
        number: u64,
        /// Those of its events that the worker gets.
        point: TimePoint,
    },
    /// It splits what it keeps among the workers of the new strategy, whose generation is told.
    Part {
        generation: u64,
        old: BoxedStrategy,
        new: BoxedStrategy,
    },
    /// It takes on what a worker of the old strategy kept.
    Adopt {
        piece: BoxedPiece,
        now: BoxedStrategy,
    },
}

/// What a worker gives.
#[derive(Drop)]
pub enum Out {
    /// Of a position that was settled: those of its violations that the worker owns.
    Rows(Rows),
    /// At a change of strategy: a piece of its state for one worker of the next strategy.
    Piece(BoxedPiece),
}

/// What is read: a time-point, or a change to another strategy.
#[derive(Drop)]
pub enum Entry {
    /// A time-point with all of its events.
    Point(TimePoint),
    /// From here on the work is divided by this strategy.
    Change(Strategy),
}
