//! The data of SINCE and UNTIL, united.
ghost use Rattle.std.specs.Prelude.{IfOk};
ghost use Rattle.monitor_state.specs.StateUnions.{SinceUnion, UntilUnion, WindowUnion};
ghost use Rattle.state_merge.specs.Fits.{SincesFit, UntilsFit, WindowsFit};

use crate::runs_and_marks::{united_marks, united_starts};
use crate::since_rows::united_times;
use crate::tables::united_operands;
use eval_since::SinceData;
use eval_until::UntilData;
use monitor_state::{SinceKept, UntilKept, WindowData};
use std::alloc::{AllocError, Global};

fn united_since(alloc: Global, first: SinceKept, second: SinceKept) -> Result<SinceKept, AllocError>
    requires { SincesFit first.kept second.kept }
    ensures { IfOk result (SinceUnion first second) }
{
    let SinceKept {
        interval,
        columns,
        kept,
    } = first;
    let other = second.kept;
    let lefts = (kept.lefts, other.lefts);
    let rights = (kept.rights, other.rights);
    let (lefts, rights) = united_operands(alloc, lefts, rights)?;
    let rows = united_times(alloc, interval.hi, kept.rows, other.rows)?;
    let kept = SinceData {
        pulled: kept.pulled,
        lefts,
        rights,
        rows,
    };
    Ok(SinceKept {
        interval,
        columns,
        kept,
    })
}

fn united_until(alloc: Global, first: UntilKept, second: UntilKept) -> Result<UntilKept, AllocError>
    requires { UntilsFit first.kept second.kept }
    ensures { IfOk result (UntilUnion first second) }
{
    let UntilKept { left, right, kept } = first;
    let other = second.kept;
    let lefts = (kept.lefts, other.lefts);
    let rights = (kept.rights, other.rights);
    let (lefts, rights) = united_operands(alloc, lefts, rights)?;
    let starts = united_starts(alloc, kept.starts, other.starts)?;
    let rows = united_marks(alloc, kept.rows, other.rows)?;
    let kept = UntilData {
        pulled: kept.pulled,
        taken: kept.taken,
        lefts,
        rights,
        starts,
        rows,
    };
    Ok(UntilKept { left, right, kept })
}

/// What both windows keep, row by row.
pub fn united_window(
    alloc: Global,
    first: WindowData,
    second: WindowData,
) -> Result<WindowData, AllocError>
    requires { WindowsFit first second }
    ensures { IfOk result (WindowUnion first second) }
{
    match (first, second) {
        (WindowData::Since(first), WindowData::Since(second)) => {
            let kept = united_since(alloc, first, second)?;
            Ok(WindowData::Since(kept))
        }
        (WindowData::Until(first), WindowData::Until(second)) => {
            let kept = united_until(alloc, first, second)?;
            Ok(WindowData::Until(kept))
        }
        (WindowData::Since(_), WindowData::Until(_)) => unreachable!(),
        (WindowData::Until(_), WindowData::Since(_)) => unreachable!(),
    }
}
