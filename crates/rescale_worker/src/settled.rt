//! The tables of newly settled positions, and what a worker says of them.
ghost use Rattle.std.specs.Prelude.{◌≡◌, ◌++◌, ◌∷◌, [], true, map, nat_eq, IfNone, IfOk, length, option_to_list};
ghost use Rattle.std.specs.List.{AllByRecursion};
ghost use Rattle.mfotl_model.specs.Tables.{all_sized};
ghost use Rattle.monitor_state.specs.MonitorView.{monitor_of};
ghost use Rattle.relations.specs.Tables.{IsTable};
ghost use Rattle.monitor_state.specs.Stands.{IsKept};
ghost use Rattle.rescale_worker.specs.Settlings.{HasWidth, IsTabled, all_settled, row_out};
ghost use Rattle.rescale_worker.specs.Workers.{owned_by, owner};

use crate::item::Out;
use mfotl_model::{Row, RowList};
use monitor_state::{Monitor, Tables};
use relations::Table;
use slice_strategy::{Slicer, Strategy};
use std::alloc::AllocError;
use verdict_merge::Rows;

/// The table of a settled position, with its number and its timestamp.
#[derive(Drop)]
pub(crate) struct Settled {
    pub(crate) point: u64,
    pub(crate) ts: u64,
    pub(crate) table: Table,
}

/// Says of the positions from the first on, whose tables these are one after the other, what the worker owns.
pub(crate) fn give_tables(
    monitor: &Monitor,
    strategy: &Strategy,
    worker: u32,
    generation: u64,
    first: u64,
    mut tables: Tables,
    outs: &mut Vec<Out>,
) -> Result<(), AllocError>
    requires kept { IsKept (monitor_of monitor.now).state first (length tables) }
    requires wide { AllByRecursion (HasWidth (length strategy.now))
        (all_settled (monitor_of monitor.now).state first tables) }
    ensures tables { IfOk result (λ _. AllByRecursion IsTabled
        (all_settled (monitor_of monitor.now).state first tables)) }
    ensures given { IfOk result (λ _. outs.new.items ≡ outs.old.items ++ map (row_out strategy.now worker generation)
        (all_settled (monitor_of monitor.now).state first tables)) }
{
    let mut point = first;
    while let Some(table) = next_table(&mut tables) {
        let ts = monitor.time_at(point);
        let settled = Settled { point, ts, table };
        give_rows(strategy, worker, generation, settled, outs)?;
        point += 1;
    }
    Ok(())
}

// Takes the first table. Mostly there is one, behind which nothing is looked for.
fn next_table(tables: &mut Tables) -> Option<Table>
    ensures first { tables.old ≡ option_to_list result ++ tables.new }
    ensures none { IfNone result (tables.old ≡ []) }
{
    if tables.len() == 0 {
        return None;
    }
    tables.take()
}

// Says of a position what the worker owns.
fn give_rows(
    strategy: &Strategy,
    worker: u32,
    generation: u64,
    settled: Settled,
    outs: &mut Vec<Out>,
) -> Result<(), AllocError>
    requires { HasWidth (length strategy.now) settled }
    ensures table { IfOk result (λ _. IsTabled settled) }
    ensures given { IfOk result (λ _.
        outs.new.items ≡ outs.old.items ++ row_out strategy.now worker generation settled ∷ []) }
{
    let Settled { point, ts, table } = settled;
    let rows = owned(strategy, worker, table);
    outs.reserve(1)?;
    outs.push_reserved(Out::Rows(Rows {
        point,
        ts,
        generation,
        worker,
        rows,
    }));
    Ok(())
}

// Those rows of the table that the worker owns.
fn owned(strategy: &Strategy, worker: u32, table: Table) -> RowList
    requires { length table.columns ≡ length strategy.now }
    ensures is_table { IsTable table.columns table.rows }
    ensures owned { result ≡ owned_by strategy.now worker table.rows }
{
    let width = table.columns().len();
    kept(strategy, worker, width, table.into_rows())
}

// Those of the rows, which all have this width, that the worker owns.
fn kept(strategy: &Strategy, worker: u32, width: usize, mut rows: Vec<Row>) -> RowList
    requires width { width ≡ length strategy.now }
    requires sized { all_sized (length strategy.now) rows.items ≡ true }
    ensures { result ≡ owned_by strategy.now worker rows.items }
{
    if worker == 0 && strategy.workers() == 1 {
        return RowList::new(rows);
    }
    rows.retain(|row| row.values().len() == width && is_owner(strategy, worker, row));
    RowList::new(rows)
}

// Whether the row belongs to the worker.
#[tactic(auto, unfolding(crate::specs::Workers::owner))]
fn is_owner(strategy: &Strategy, worker: u32, row: &Row) -> bool
    requires { length row.now ≡ length strategy.now }
    ensures { result ≡ nat_eq (owner strategy.now row.now) worker }
{
    strategy.owner(row) == worker
}
