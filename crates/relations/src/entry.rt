//! Rows behind their keys.
ghost use Rattle.std.specs.Prelude.{refl};
ghost use Rattle.std.specs.Cmp.{eq_by_cmp_equiv, partial_equiv_from_equiv, partial_order_from_agreeing_total};
ghost use Rattle.std.specs.Ordering.{as_partial_cmp, eq_by_cmp};
ghost use Rattle.relations.specs.Entries.{entry_cmp, entry_total};

use mfotl_model::Row;
use std::cmp::Ordering;

/// A row behind its key. Entries compare by their keys, then by their rows.
#[derive(Drop)]
pub(crate) struct Entry {
    pub(crate) key: Row,
    pub(crate) row: Row,
}

impl PartialEq for Entry {
    ghost eq = { eq_by_cmp entry_cmp };

    ghost laws = { partial_equiv_from_equiv (eq_by_cmp_equiv entry_total) };

    fn eq(&self, other: &Entry) -> bool {
        self.cmp(other).is_eq()
    }
}

impl Eq for Entry {
    ghost laws = { eq_by_cmp_equiv entry_total };
}

impl PartialOrd for Entry {
    ghost partial_cmp = { as_partial_cmp entry_cmp };

    ghost laws = { partial_order_from_agreeing_total entry_cmp entry_total (λ x y. refl) (λ x y. refl) };

    fn partial_cmp(&self, other: &Entry) -> Option<Ordering> {
        Some(self.cmp(other))
    }
}

impl Ord for Entry {
    ghost cmp = { entry_cmp };

    ghost total = { entry_total };

    ghost matches_partial_cmp = { λ x y. refl };

    ghost matches_eq = { λ x y. refl };

    fn cmp(&self, other: &Entry) -> Ordering {
        self.key.cmp(&other.key).then(self.row.cmp(&other.row))
    }
}
