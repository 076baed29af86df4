//! A sink that looks at a meeting whenever it gets a line.
ghost use Rattle.std.specs.Prelude.{◌≡◌};

use crate::meeting::Meeting;
use mon_outside::{Failed, Sink};

/// Passes on what it gets, and tells whether a line came before both workers had come for its time-point. Each line is
/// one write.
#[derive(Drop)]
pub struct WatchedSink<'a, K: Sink + Drop> {
    inner: K,
    meeting: &'a Meeting,
    lines: u64,
    early: bool,
}

impl<'a, K: Sink + Drop> WatchedSink<'a, K> {
    /// Watches that meeting, and got no line.
    pub fn new(inner: K, meeting: &'a Meeting) -> Self {
        WatchedSink {
            inner,
            meeting,
            lines: 0,
            early: false,
        }
    }

    /// The sink that it passes on to.
    pub fn inner(&self) -> &K {
        &self.inner
    }

    /// How many lines it got.
    pub fn lines(&self) -> u64 {
        self.lines
    }

    /// Whether a line came too early.
    pub fn was_early(&self) -> bool {
        self.early
    }
}

impl<K: Sink + Drop> Sink for WatchedSink<'_, K> {
    ghost written = { λ s. K.written s.inner };

    ghost held = { λ s. K.held s.inner };

    ghost faults = { λ s. K.faults s.inner };

    fn write(&mut self, piece: &[u8]) -> Result<usize, Failed> {
        let (first, second) = self.meeting.passes();
        if first.min(second) <= self.lines {
            self.early = true;
        }
        self.lines = self.lines.saturating_add(1);
        self.inner.write(piece)
    }

    fn flush(&mut self) -> Result<(), Failed> {
        self.inner.flush()
    }
}
