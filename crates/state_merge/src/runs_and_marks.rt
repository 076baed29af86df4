//! The rows of UNTIL with the starts of their runs, or with their marks, united.
ghost use Rattle.std.specs.Prelude.{◌≡◌, IfOk, min};
ghost use Rattle.std.specs.List.{AllByRecursion};
ghost use Rattle.mfotl_model.specs.Values.{row_cmp};
ghost use Rattle.relations.specs.KeptRows.{RowsAscend};
ghost use Rattle.until_rows.specs.Recalled.{starts_kept};
ghost use Rattle.monitor_state.specs.JoinedRows.{RowsUnion, marks_joined};
ghost use Rattle.monitor_state.specs.StateStands.{marks_kept};
ghost use Rattle.state_merge.specs.Pairs.{MarksAscend};

use crate::keyed::{Keyed, joined};
use crate::marks::joined_marks;
use eval_until::{KeptMarks, KeptStart, Mark};
use std::alloc::{AllocError, Global};
use std::cmp::Ordering;

impl Keyed for KeptStart {
    ghost use Rattle.std.specs.Prelude.{ℕ, List};
    ghost use Rattle.mfotl_model.specs.declared.value.Value.{Value};

    type Limit = ();

    ghost Told = { List Value × ℕ };

    ghost told = { λ k. (k.row, k.start) };

    ghost order = { λ x y. row_cmp x.row y.row };

    ghost fits = { λ k. Unit {0} };

    ghost both = { λ limit x y. (x.row, min x.start y.start) };

    fn order(&self, other: &Self) -> Ordering {
        self.row.cmp(&other.row)
    }

    fn united(self, _alloc: Global, _limit: (), other: Self) -> Result<Self, AllocError> {
        Ok(KeptStart {
            row: self.row,
            start: self.start.min(other.start),
        })
    }
}

impl Keyed for KeptMarks {
    ghost use Rattle.std.specs.Prelude.{List};
    ghost use Rattle.mfotl_model.specs.declared.value.Value.{Value};
    ghost use Rattle.until_rows.specs.declared.recalled.Mark.{Mark};

    type Limit = ();

    ghost Told = { List Value × List Mark };

    ghost told = { λ k. (k.row, k.marks.items) };

    ghost order = { λ x y. row_cmp x.row y.row };

    ghost fits = { λ k. MarksAscend k.marks.items };

    ghost both = { λ limit x y. (x.row, marks_joined x.marks.items y.marks.items) };

    fn order(&self, other: &Self) -> Ordering {
        self.row.cmp(&other.row)
    }

    fn united(self, alloc: Global, _limit: (), other: Self) -> Result<Self, AllocError> {
        let others = marks_of(other);
        let marks = joined_marks(alloc, self.marks, others)?;
        Ok(KeptMarks {
            row: self.row,
            marks,
        })
    }
}

fn marks_of(kept: KeptMarks) -> Vec<Mark>
    ensures { result ≡ kept.marks }
{
    kept.marks
}

/// For each row the start that is kept, of two the lesser one, by one walk over the two lists.
#[tactic(auto, using(crate::proofs::PairLemmas::unasked))]
pub fn united_starts(
    alloc: Global,
    first: Vec<KeptStart>,
    second: Vec<KeptStart>,
) -> Result<Vec<KeptStart>, AllocError>
    requires first { RowsAscend (starts_kept first.items) }
    requires second { RowsAscend (starts_kept second.items) }
    ensures { IfOk result (λ starts. RowsUnion min
        (starts_kept first.items) (starts_kept second.items) (starts_kept starts.items)) }
{
    let starts = joined(alloc, (), first, second)?;
    Ok(starts)
}

/// For each row the marks of both, by one walk over the two lists.
pub fn united_marks(
    alloc: Global,
    first: Vec<KeptMarks>,
    second: Vec<KeptMarks>,
) -> Result<Vec<KeptMarks>, AllocError>
    requires first { RowsAscend (marks_kept first.items) }
    requires first_marks { AllByRecursion (λ k. MarksAscend k.marks.items) first.items }
    requires second { RowsAscend (marks_kept second.items) }
    requires second_marks { AllByRecursion (λ k. MarksAscend k.marks.items) second.items }
    ensures { IfOk result (λ rows. RowsUnion marks_joined
        (marks_kept first.items) (marks_kept second.items) (marks_kept rows.items)) }
{
    let rows = joined(alloc, (), first, second)?;
    Ok(rows)
}
