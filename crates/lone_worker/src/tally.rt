//! What is counted of the verdicts.
ghost use Rattle.std.specs.Prelude.{◌≡◌, ◌+◌, [], OnOk, cond, nat_lt};
ghost use Rattle.lone_worker.specs.Texts.{tally_of};

use std::alloc::AllocError;

/// How many verdicts there were, how many of them had a row, and how many rows all had.
#[derive(Clone, Copy)]
pub struct Tally {
    pub settled: u64,
    pub violated: u64,
    pub rows: u128,
}

impl Tally {
    /// Nothing was counted.
    pub(crate) fn none() -> Self
        ensures { result ≡ tally_of [] }
    {
        Tally {
            settled: 0,
            violated: 0,
            rows: 0,
        }
    }

    /// One verdict more, with so many rows. Where a count has no room for them it errs, as for want of memory.
    pub(crate) fn count(&mut self, rows: usize) -> Result<(), AllocError>
        ensures settled { OnOk result (self.new.settled ≡ self.old.settled + 1) }
        ensures violated { OnOk result (self.new.violated ≡ self.old.violated + cond (nat_lt 0 rows) 1 0) }
        ensures rows { OnOk result (self.new.rows ≡ self.old.rows + rows) }
    {
        self.settled = self.settled.checked_add(1).ok_or(AllocError)?;
        self.violated = self
            .violated
            .checked_add(u64::from(rows > 0))
            .ok_or(AllocError)?;
        self.rows = self.rows.checked_add(rows as u128).ok_or(AllocError)?;
        Ok(())
    }
}
