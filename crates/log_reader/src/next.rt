//! What one call of the reader answers.
use mfotl_model::TimePoint;

/// What a reader gives.
#[derive(Debug, Drop)]
pub enum Next {
    /// The next time-point.
    Point(TimePoint),
    /// None is complete: more bytes have to come, or the end has to be told.
    More,
    /// The log is at its end.
    End,
}
