//! How long a log may be, and the part of it that a limit lets be seen.
ghost use Rattle.std.specs.Prelude.{◌≡◌, ◌+◌, ◌<◌, ◌^◌, nat_lt, length};
ghost use Rattle.log_reader.specs.Limits.{byte_limit, point_limit, event_limit};
ghost use Rattle.log_reader.specs.Stretches.{looked_at, is_end_told};

use crate::stretch::Stretch;

/// The greatest timestamp.
pub(crate) const LAST_TIMESTAMP: u64 = 1 << 62;

/// With one more digit a number above this is greater than any timestamp.
pub(crate) const TIMESTAMP_ROOM: u64 = 461_168_601_842_738_790;

const BYTE_LIMIT: u64 = 1 << 40;

const POINT_LIMIT: u32 = u32::MAX;

const EVENT_LIMIT: u32 = 65_536;

/// What a log may have at most.
#[derive(Clone, Copy)]
pub struct Limits {
    pub bytes: u64,
    /// Time-points.
    pub points: u32,
    /// Groups of one time-point, as they are written.
    pub events: u32,
}

impl Limits {
    /// The limits of the monitor.
    pub fn standard() -> Self
        ensures bytes { result.bytes ≡ byte_limit }
        ensures points { result.points ≡ point_limit }
        ensures events { result.events ≡ event_limit }
    {
        Limits {
            bytes: BYTE_LIMIT,
            points: POINT_LIMIT,
            events: EVENT_LIMIT,
        }
    }

    /// Whether a byte stands at the limit of a log of so many bytes.
    pub(crate) fn is_past(&self, len: usize) -> bool
        ensures { result ≡ nat_lt self.now.bytes len }
    {
        self.bytes < len as u64
    }

    /// What is looked at of a log's bytes: those below the limit. `ended` says that no more come.
    pub(crate) fn look_at<'b>(&self, kept: &'b Stretch, ended: bool) -> Look<'b>
        ensures from { result.from ≡ kept.now.from }
        ensures bytes { result.bytes.now ≡ looked_at self.now kept.now }
        ensures ended { result.ended ≡ is_end_told self.now kept.now ended }
        ensures small { result.from + length result.bytes.now < 2 ^ 63 }
    {
        let is_long = self.is_past(kept.end());
        let bytes = kept.bytes();
        let room = self.bytes.saturating_sub(kept.from() as u64) as usize;
        let looked = if is_long {
            bytes.split_at(room).0
        } else {
            bytes
        };
        Look {
            from: kept.from(),
            bytes: looked,
            ended: ended && !is_long,
        }
    }
}

/// Bytes that are looked at, the first of which has the offset `from` in the log; `ended` says that they end with it.
#[derive(Clone, Copy)]
pub(crate) struct Look<'b> {
    pub from: usize,
    pub bytes: &'b [u8],
    pub ended: bool,
}
