//! What divides rows among workers.
ghost use Rattle.std.specs.Prelude.{◌≡◌, ◌<◌, ◌≤◌, IfSome, length, true};
ghost use Rattle.mfotl_model.specs.Tables.{valuation};
ghost use Rattle.slice_strategy.specs.Limits.{max_workers};
ghost use Rattle.slice_strategy.specs.Slicers.{full_row, end_of, OneOwner, Covers, NearIsOwner, NoneFrom, PassesOn};

use crate::strategy::Strategy;
use mfotl_model::{Partial, Row};

/// Divides the rows over a policy's free variables among workers. A call takes no memory.
pub trait Slicer {
    ghost use Rattle.std.specs.Prelude.{ℕ};
    ghost use Rattle.mfotl_model.specs.Regions.{Region};
    ghost use Rattle.mfotl_model.specs.Satisfaction.{Valuation};

    // how many free variables there are, numbered from 0
    ghost width: { Self → ℕ };

    // how many workers there are, numbered from 0
    ghost count: { Self → ℕ };

    // the worker that a row over all free variables belongs to
    ghost owned_by: { Self → Valuation → ℕ };

    // the rows that are near to a worker
    ghost region: { Self → ℕ → Region };

    /// How many workers there are.
    fn workers(&self) -> u32
        ensures count { result ≡ count self.now }
        ensures some { 0 < result }
        ensures few { result ≤ max_workers };

    /// The worker that a row over all free variables belongs to, which gives each its value by its number.
    fn owner(&self, row: &Row) -> u32
        requires { length row.now ≡ width self.now }
        ensures { result ≡ owned_by self.now (full_row row.now) };

    /// Whether a row that binds some variables may be of concern to worker `k`.
    fn near(&self, k: u32, part: &Partial) -> bool
        requires below { k < count self.now }
        requires sized { length part.now.cols.now ≡ length part.now.row.now }
        ensures { result ≡ region self.now k part.now.cols.now (valuation part.now.cols.now part.now.row.now) };

    /// The first worker from `from` on that a row which binds some variables may be of concern to, if there is any.
    fn next_near(&self, from: u32, part: &Partial) -> Option<u32>
        requires { length part.now.cols.now ≡ length part.now.row.now }
        ensures reached { IfSome result (λ k. (from ≤ k) × (k < count self.now)) }
        ensures near { IfSome result (λ k.
            region self.now k part.now.cols.now (valuation part.now.cols.now part.now.row.now) ≡ true) }
        ensures first { NoneFrom from (end_of (count self.now) result)
            (λ k. region self.now k part.now.cols.now (valuation part.now.cols.now part.now.row.now)) }
    {
        for k in from..self.workers() {
            if self.near(k, part) {
                return Some(k);
            }
        }
        None
    }

    ghost one_owner: { OneOwner count owned_by };

    ghost passes: { PassesOn width region };

    ghost covers: { Covers count region };

    ghost near_is_owner: { NearIsOwner count width owned_by region };
}

impl Slicer for Strategy {
    ghost use Rattle.std.specs.Prelude.{length};
    ghost use Rattle.mfotl_model.specs.Regions.{near_of};
    ghost use Rattle.mfotl_model.specs.Strategies.{owner_of, workers_of};
    ghost use Rattle.slice_strategy.specs.SlicerLemmas as lemmas;

    ghost width = { length };

    ghost count = { workers_of };

    ghost owned_by = { owner_of };

    ghost region = { near_of };

    ghost one_owner = { lemmas.one_owner };

    ghost passes = { lemmas.passes_on };

    ghost covers = { lemmas.strategy_covers };

    ghost near_is_owner = { lemmas.near_is_owner };

    fn workers(&self) -> u32 {
        self.count()
    }

    fn owner(&self, row: &Row) -> u32 {
        self.owner_of(row)
    }

    fn near(&self, k: u32, part: &Partial) -> bool {
        self.is_near(k, part)
    }

    fn next_near(&self, from: u32, part: &Partial) -> Option<u32> {
        self.find_near(from, part)
    }
}
