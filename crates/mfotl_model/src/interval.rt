//! The intervals of the temporal operators.
ghost use Rattle.std.specs.Prelude.{◌≡◌, ◌<◌, ◌≤◌, ◌↔◌, IfSome, IsNone, IsSomeAnd};
ghost use Rattle.std.specs.Option.{ForSome};

/// The distances in time that a temporal operator looks at, both ends included.
#[derive(Clone, Copy, Debug, PartialEq, Eq)]
pub struct Interval {
    pub lo: u64,
    /// `None` is no upper end.
    pub hi: Option<u64>,
    ghost ordered: { ForSome hi (λ h. lo ≤ h) },
}

impl Interval {
    ghost use Rattle.mfotl_model.specs.Intervals.{in_interval};

    pub fn new(lo: u64, hi: Option<u64>) -> Option<Interval>
        ensures empty { IsNone result ↔ IsSomeAnd hi (λ h. h < lo) }
        ensures lower { IfSome result (λ interval. interval.lo ≡ lo) }
        ensures upper { IfSome result (λ interval. interval.hi ≡ hi) }
    {
        match hi {
            Some(h) if h < lo => None,
            _ => Some(Interval { lo, hi }),
        }
    }

    pub fn contains(&self, d: u64) -> bool
        ensures { result ≡ in_interval self.now d }
    {
        self.lo <= d && self.hi.is_none_or(|h| d <= h)
    }
}
