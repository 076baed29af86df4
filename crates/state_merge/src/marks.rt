//! The marks of a row, united.
ghost use Rattle.std.specs.Prelude.{◌≡◌, IfOk};
ghost use Rattle.monitor_state.specs.JoinedRows.{marks_joined};
ghost use Rattle.state_merge.specs.Pairs.{MarksAscend};

use crate::keyed::{Keyed, joined};
use eval_until::Mark;
use std::alloc::{AllocError, Global};
use std::cmp::Ordering;

impl Keyed for Mark {
    ghost use Rattle.std.specs.Ordering.{nat_cmp};
    ghost use Rattle.until_rows.specs.declared.recalled.Mark.{Mark};
    ghost use Rattle.state_merge.specs.Pairs.{lesser_mark};

    type Limit = ();

    ghost Told = { Mark };

    ghost told = { λ m. m };

    ghost order = { λ m n. nat_cmp m.place n.place };

    ghost fits = { λ m. Unit {0} };

    ghost both = { λ limit m n. lesser_mark m n };

    fn order(&self, other: &Self) -> Ordering {
        self.place.cmp(&other.place)
    }

    fn united(self, _alloc: Global, _limit: (), other: Self) -> Result<Self, AllocError> {
        Ok(Mark {
            place: other.place,
            start: self.start.min(other.start),
        })
    }
}

/// The marks of both, by their places; of two for one place the lesser start.
#[tactic(auto, using(crate::proofs::PairLemmas::unasked))]
pub fn joined_marks(
    alloc: Global,
    first: Vec<Mark>,
    second: Vec<Mark>,
) -> Result<Vec<Mark>, AllocError>
    requires first { MarksAscend first.items }
    requires second { MarksAscend second.items }
    ensures { IfOk result (λ marks. marks.items ≡ marks_joined first.items second.items) }
{
    let marks = joined(alloc, (), first, second)?;
    Ok(marks)
}
