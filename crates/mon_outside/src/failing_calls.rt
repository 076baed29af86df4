//! A plan of the calls that fail.

ghost use Rattle.std.specs.Prelude.{◌≡◌, ◌≤◌};
ghost use Rattle.mon_outside.specs.Memory.{fails_next, after_call};

use std::marker::Model;

// Which calls fail, and the counts of calls and faults.
#[derive(Drop)]
pub(crate) struct Calls<'a> {
    fail: &'a [u64],
    calls: u64,
    faults: u64,
}

impl<'a> Model for Calls<'a> {
    ghost use Rattle.mon_outside.specs.Memory.{Plan};

    ghost Value = { Plan };

    ghost view = { λ c. record { fail = c.fail.now; calls = c.calls; faults = c.faults } };
}

impl<'a> Calls<'a> {
    pub(crate) fn new(fail: &'a [u64]) -> Self
        ensures { result ≡ record { fail = fail.now; calls = 0; faults = 0 } }
    {
        Calls {
            fail,
            calls: 0,
            faults: 0,
        }
    }

    // Whether the next call is one that fails.
    pub(crate) fn fails_next(&self) -> bool
        ensures { result ≡ fails_next self.now }
    {
        self.fail.iter().any(|number| *number == self.calls)
    }

    // Counts a call, and its fault if it failed.
    pub(crate) fn count(&mut self, failed: bool)
        ensures after { self.new ≡ after_call self.old failed }
        ensures later { self.old.faults ≤ self.new.faults }
    {
        self.calls = self.calls.saturating_add(1);
        if failed {
            self.faults = self.faults.saturating_add(1);
        }
    }
}
