//! The rows that are near to a worker and to those of the next strategy.
ghost use Rattle.std.specs.Prelude.{◌≡◌, ◌≤◌};
ghost use Rattle.slice_strategy.specs.Limits.{max_workers};
ghost use Rattle.slice_strategy.specs.Sharing.{IsFirst};
ghost use Rattle.state_split.specs.Sieves.{is_kept};

use crate::sorter::Sorter;
use mfotl_model::{Partial, Row};
use slice_strategy::Slicer;

/// A worker, and the strategy that is next.
#[derive(Drop)]
pub(crate) struct Both<'a, S, S2> {
    pub(crate) present: &'a S,
    pub(crate) from: u32,
    pub(crate) next: &'a S2,
}

impl<'a, S: Slicer, S2: Slicer> Sorter for Both<'a, S, S2> {
    ghost use Rattle.std.specs.Prelude.{◌<◌};
    ghost use Rattle.mfotl_model.specs.Regions.{in_both};

    ghost count = { λ b. S2.count b.next.now };

    ghost region = { λ b to. in_both (S.region b.present.now b.from) (S2.region b.next.now to) };

    ghost tells = { λ b. b.from < S.count b.present.now };

    fn workers(&self) -> u32 {
        self.next.workers()
    }

    fn next_worker(&self, from: u32, columns: &[u32], row: &Row) -> Option<u32> {
        if row.values().len() != columns.len() {
            return None;
        }
        let part = Partial { cols: columns, row };
        let found = self.next.next_near(from, &part)?;
        if self.present.near(self.from, &part) {
            Some(found)
        } else {
            None
        }
    }
}
