//! Tables cut for workers: each gets the rows in its region.
ghost use Rattle.std.specs.Prelude.{◌≡◌, IfOk, map};
ghost use Rattle.std.specs.List.{AllByRecursion};
ghost use Rattle.monitor_state.specs.StateCuts.{cut_table, cut_tables};
ghost use Rattle.relations.specs.Tables.{IsTable};
ghost use Rattle.state_split.specs.Shares.{OneEach};

use crate::rows::dealt_rows;
use crate::shares::{empty_shares, lengthen, paired};
use crate::sorter::Sorter;
use mfotl_model::Row;
use relations::{Columns, Table};
use std::alloc::{AllocError, Global};

fn table_over(alloc: Global, columns: &[u32], rows: Vec<Row>) -> Result<Table, AllocError>
    requires { IsTable columns.now rows.items }
    ensures { IfOk result (λ table. table ≡ record { columns = columns.now; rows = rows.items }) }
{
    let columns = Columns::from_slice(alloc, columns)?;
    Ok(Table::from_rows(columns, rows))
}

// A table of each of the lists of rows.
fn tables_over(
    alloc: Global,
    columns: &[u32],
    shares: Vec<Vec<Row>>,
) -> Result<Vec<Table>, AllocError>
    requires { AllByRecursion (λ rows. IsTable columns.now rows.items) shares.items }
    ensures { IfOk result (λ tables. tables.items
        ≡ map (λ rows. record { columns = columns.now; rows = rows.items }) shares.items) }
{
    let mut tables = Vec::with_capacity(alloc, shares.len())?;
    for rows in shares {
        tables.push(table_over(alloc, columns, rows)?)?;
    }
    Ok(tables)
}

fn cut_table<S: Sorter>(alloc: Global, sorter: &S, table: Table) -> Result<Vec<Table>, AllocError>
    requires { S.tells sorter.now }
    ensures { IfOk result (λ cuts. OneEach (S.count sorter.now)
        (λ k cut. cut ≡ cut_table (S.region sorter.now k) table) cuts.items) }
{
    let columns = Vec::from_slice(alloc, table.columns())?;
    let shares = dealt_rows(alloc, sorter, &columns, table.into_rows())?;
    let cuts = tables_over(alloc, &columns, shares)?;
    Ok(cuts)
}

/// For each worker all of the tables, with the rows in its region alone.
pub(crate) fn cut_tables<S: Sorter>(
    alloc: Global,
    sorter: &S,
    tables: Vec<Table>,
) -> Result<Vec<Vec<Table>>, AllocError>
    requires { S.tells sorter.now }
    ensures { IfOk result (λ cuts. OneEach (S.count sorter.now)
        (λ k cut. cut.items ≡ cut_tables (S.region sorter.now k) tables.items) cuts.items) }
{
    let mut cuts = empty_shares(alloc, sorter.workers())?;
    for table in tables {
        let added = cut_table(alloc, sorter, table)?;
        lengthen(&mut cuts, added)?;
    }
    Ok(cuts)
}

/// The same of lists of tables.
pub(crate) fn cut_lists<S: Sorter>(
    alloc: Global,
    sorter: &S,
    lists: Vec<Vec<Table>>,
) -> Result<Vec<Vec<Vec<Table>>>, AllocError>
    requires { S.tells sorter.now }
    ensures { IfOk result (λ cuts. OneEach (S.count sorter.now)
        (λ k cut. map (λ ts. ts.items) cut.items
        ≡ map (cut_tables (S.region sorter.now k)) (map (λ ts. ts.items) lists.items)) cuts.items) }
{
    let mut cuts = empty_shares(alloc, sorter.workers())?;
    for tables in lists {
        let added = cut_tables(alloc, sorter, tables)?;
        lengthen(&mut cuts, added)?;
    }
    Ok(cuts)
}

/// Both lists of tables for each worker.
pub(crate) fn cut_operands<S: Sorter>(
    alloc: Global,
    sorter: &S,
    lefts: Vec<Table>,
    rights: Vec<Table>,
) -> Result<Vec<(Vec<Table>, Vec<Table>)>, AllocError>
    requires { S.tells sorter.now }
    ensures { IfOk result (λ cuts. OneEach (S.count sorter.now)
        (λ k cut. (cut.0.items ≡ cut_tables (S.region sorter.now k) lefts.items)
        × (cut.1.items ≡ cut_tables (S.region sorter.now k) rights.items)) cuts.items) }
{
    let lefts = cut_tables(alloc, sorter, lefts)?;
    let rights = cut_tables(alloc, sorter, rights)?;
    let cuts = paired(alloc, lefts, rights)?;
    Ok(cuts)
}
