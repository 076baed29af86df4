//! The data of windows cut for workers: each gets the rows in its region, and all that is kept for them.
ghost use Rattle.std.specs.Prelude.{◌≡◌, IfOk};
ghost use Rattle.until_rows.specs.Recalled.{starts_kept};
ghost use Rattle.monitor_state.specs.StateStands.{marks_kept};
ghost use Rattle.monitor_state.specs.declared.state.WindowData.TheVariants.{Since, Until};
ghost use Rattle.state_split.specs.Fits.{CutWindows};
ghost use Rattle.state_split.specs.Shares.{OneEach};
ghost use Rattle.state_split.specs.Sieves.{SinceDealt, UntilDealt, rows_inside};

use crate::rows::dealt_rows;
use crate::shares::{copies, paired};
use crate::sorter::Sorter;
use crate::tables::cut_operands;
use eval_since::SinceData;
use eval_until::{KeptMarks, KeptStart, UntilData};
use monitor_state::{SinceKept, UntilKept, WindowData};
use std::alloc::{AllocError, Global};

// The tables and rows for each worker, where the rows are over these columns.
fn cut_since_data<S: Sorter>(
    alloc: Global,
    sorter: &S,
    columns: &[u32],
    kept: SinceData,
) -> Result<Vec<SinceData>, AllocError>
    requires { S.tells sorter.now }
    ensures { IfOk result (λ cuts. OneEach (S.count sorter.now)
        (λ k cut. SinceDealt (S.region sorter.now k) columns.now kept cut) cuts.items) }
{
    let pulled = kept.pulled;
    let operands = cut_operands(alloc, sorter, kept.lefts, kept.rights)?;
    let rows = dealt_rows(alloc, sorter, columns, kept.rows)?;
    let pairs = paired(alloc, operands, rows)?;
    pairs
        .into_iter()
        .map(|((lefts, rights), rows)| SinceData {
            pulled,
            lefts,
            rights,
            rows,
        })
        .collect(alloc)
}

fn cut_since<S: Sorter>(
    alloc: Global,
    sorter: &S,
    since: SinceKept,
) -> Result<Vec<WindowData>, AllocError>
    requires { S.tells sorter.now }
    ensures { IfOk result (λ cuts.
        CutWindows (S.count sorter.now) (S.region sorter.now) (Since since) cuts.items) }
{
    let SinceKept {
        interval,
        columns,
        kept,
    } = since;
    let kept = cut_since_data(alloc, sorter, &columns, kept)?;
    let lists = copies(alloc, &columns, sorter.workers())?;
    let pairs = paired(alloc, lists, kept)?;
    pairs
        .into_iter()
        .map(|(columns, kept)| {
            WindowData::Since(SinceKept {
                interval,
                columns,
                kept,
            })
        })
        .collect(alloc)
}

// The starts and rows for each worker, where the starts are over the left columns and the rows over the right ones.
fn cut_entries<S: Sorter>(
    alloc: Global,
    sorter: &S,
    left: &[u32],
    right: &[u32],
    starts: Vec<KeptStart>,
    rows: Vec<KeptMarks>,
) -> Result<Vec<(Vec<KeptStart>, Vec<KeptMarks>)>, AllocError>
    requires { S.tells sorter.now }
    ensures { IfOk result (λ cuts. OneEach (S.count sorter.now) (λ k cut.
        (starts_kept cut.0.items ≡ rows_inside (S.region sorter.now k) left.now (starts_kept starts.items))
        × (marks_kept cut.1.items ≡ rows_inside (S.region sorter.now k) right.now (marks_kept rows.items)))
        cuts.items) }
{
    let starts = dealt_rows(alloc, sorter, left, starts)?;
    let rows = dealt_rows(alloc, sorter, right, rows)?;
    let entries = paired(alloc, starts, rows)?;
    Ok(entries)
}

// The tables, starts and rows for each worker, where the starts are over the left columns and the rows over the right
// ones.
fn cut_until_data<S: Sorter>(
    alloc: Global,
    sorter: &S,
    left: &[u32],
    right: &[u32],
    kept: UntilData,
) -> Result<Vec<UntilData>, AllocError>
    requires { S.tells sorter.now }
    ensures { IfOk result (λ cuts. OneEach (S.count sorter.now)
        (λ k cut. UntilDealt (S.region sorter.now k) left.now right.now kept cut) cuts.items) }
{
    let pulled = kept.pulled;
    let taken = kept.taken;
    let operands = cut_operands(alloc, sorter, kept.lefts, kept.rights)?;
    let entries = cut_entries(alloc, sorter, left, right, kept.starts, kept.rows)?;
    let pairs = paired(alloc, operands, entries)?;
    pairs
        .into_iter()
        .map(|((lefts, rights), (starts, rows))| UntilData {
            pulled,
            taken,
            lefts,
            rights,
            starts,
            rows,
        })
        .collect(alloc)
}

// The same, over the columns of the window.
fn cut_until_kept<S: Sorter>(
    alloc: Global,
    sorter: &S,
    until: UntilKept,
) -> Result<Vec<UntilData>, AllocError>
    requires { S.tells sorter.now }
    ensures { IfOk result (λ cuts. OneEach (S.count sorter.now)
        (λ k cut. UntilDealt (S.region sorter.now k) until.left.items until.right.items until.kept cut) cuts.items) }
{
    let UntilKept { left, right, kept } = until;
    let cuts = cut_until_data(alloc, sorter, &left, &right, kept)?;
    Ok(cuts)
}

// Copies of both lists of columns for each worker.
fn column_pairs<S: Sorter>(
    alloc: Global,
    sorter: &S,
    left: &[u32],
    right: &[u32],
) -> Result<Vec<(Vec<u32>, Vec<u32>)>, AllocError>
    ensures { IfOk result (λ pairs. OneEach (S.count sorter.now)
        (λ k pair. (pair.0.items ≡ left.now) × (pair.1.items ≡ right.now)) pairs.items) }
{
    let lefts = copies(alloc, left, sorter.workers())?;
    let rights = copies(alloc, right, sorter.workers())?;
    let pairs = paired(alloc, lefts, rights)?;
    Ok(pairs)
}

fn cut_until<S: Sorter>(
    alloc: Global,
    sorter: &S,
    until: UntilKept,
) -> Result<Vec<WindowData>, AllocError>
    requires { S.tells sorter.now }
    ensures { IfOk result (λ cuts.
        CutWindows (S.count sorter.now) (S.region sorter.now) (Until until) cuts.items) }
{
    let columns = column_pairs(alloc, sorter, &until.left, &until.right)?;
    let kept = cut_until_kept(alloc, sorter, until)?;
    let pairs = paired(alloc, columns, kept)?;
    pairs
        .into_iter()
        .map(|((left, right), kept)| WindowData::Until(UntilKept { left, right, kept }))
        .collect(alloc)
}

/// The window for each worker, with the rows in its region alone, and all that is kept for them.
pub(crate) fn cut_window<S: Sorter>(
    alloc: Global,
    sorter: &S,
    window: WindowData,
) -> Result<Vec<WindowData>, AllocError>
    requires { S.tells sorter.now }
    ensures { IfOk result (λ cuts.
        CutWindows (S.count sorter.now) (S.region sorter.now) window cuts.items) }
{
    match window {
        WindowData::Since(since) => cut_since(alloc, sorter, since),
        WindowData::Until(until) => cut_until(alloc, sorter, until),
    }
}
