//! The timestamps that nodes are resumed with.
ghost use Rattle.std.specs.Prelude.{◌≡◌};
ghost use Rattle.monitor_state.specs.StateTimes.{time_before, times_from};

use std::marker::Model;

/// Timestamps, and the place of the first of them.
#[derive(Drop)]
pub(crate) struct KeptTimes<'a> {
    pub(crate) first: u64,
    pub(crate) stamps: &'a [u64],
}

impl<'a> Model for KeptTimes<'a> {
    ghost use Rattle.monitor_state.specs.StateTimes.{KeptTimes as Kept};

    ghost Value = { Kept };

    ghost view = { λ k. record { first = k.first; stamps = k.stamps.now } };
}

impl KeptTimes<'_> {
    /// Those from a place on.
    pub(crate) fn from_place(&self, place: u64) -> &[u64]
        ensures { result.now ≡ times_from self.now place }
    {
        let at = place
            .saturating_sub(self.first)
            .min(self.stamps.len() as u64);
        &self.stamps[at as usize..]
    }

    /// That of the place before; 0 before the first place.
    pub(crate) fn before_place(&self, place: u64) -> u64
        ensures { result ≡ time_before self.now place }
    {
        if place == 0 {
            return 0;
        }
        let at = (place - 1).saturating_sub(self.first);
        match self.stamps.get(at as usize) {
            Some(time) => *time,
            None => 0,
        }
    }
}
