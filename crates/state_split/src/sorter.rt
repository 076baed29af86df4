//! What tells the workers that a row goes to.
ghost use Rattle.std.specs.Prelude.{◌≡◌, ◌≤◌};
ghost use Rattle.slice_strategy.specs.Limits.{max_workers};
ghost use Rattle.slice_strategy.specs.Sharing.{IsFirst};
ghost use Rattle.state_split.specs.Sieves.{is_kept};

use mfotl_model::Row;

/// Tells which workers each row goes to: those in whose region it lies.
pub(crate) trait Sorter {
    ghost use Rattle.std.specs.Prelude.{ℕ};
    ghost use Rattle.mfotl_model.specs.Regions.{Region};

    // how many workers there are
    ghost count: { Self → ℕ };

    // the region of each
    ghost region: { Self → ℕ → Region };

    // when it can tell
    ghost tells: { Self → Type 0 };

    /// How many workers there are.
    fn workers(&self) -> u32
        ensures count { result ≡ count self.now }
        ensures few { result ≤ max_workers };

    /// The first worker from `from` on in whose region the row lies. There is none where the row has no value for a
    /// column.
    fn next_worker(&self, from: u32, columns: &[u32], row: &Row) -> Option<u32>
        requires { tells self.now }
        ensures { IsFirst (λ k. is_kept (region self.now k) columns.now row.now) from (count self.now) result };
}
