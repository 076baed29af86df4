//! Tables of one position each, united one by one.
ghost use Rattle.std.specs.Prelude.{◌≡◌, IfOk, map};
ghost use Rattle.monitor_state.specs.StateUnions.{ListsUnion, TableUnion, TablesUnion};
ghost use Rattle.state_merge.specs.Fits.{ListsFit, TablesFit};

use relations::Table;
use std::alloc::{AllocError, Global};

fn united_table(first: Table, second: Table) -> Result<Table, AllocError>
    requires same { first.columns ≡ second.columns }
    ensures { IfOk result (TableUnion first second) }
{
    let table = first.united(second)?;
    Ok(table)
}

/// The rows of both, table by table.
pub fn united_tables(
    alloc: Global,
    first: Vec<Table>,
    second: Vec<Table>,
) -> Result<Vec<Table>, AllocError>
    requires { TablesFit first.items second.items }
    ensures { IfOk result (λ tables. TablesUnion first.items second.items tables.items) }
{
    let mut tables = Vec::with_capacity(alloc, first.len())?;
    let mut others = second.into_iter();
    for table in first {
        let Some(other) = others.next() else {
            unreachable!();
        };
        tables.push(united_table(table, other)?)?;
    }
    Ok(tables)
}

/// The rows of both, list by list.
pub fn united_lists(
    alloc: Global,
    first: Vec<Vec<Table>>,
    second: Vec<Vec<Table>>,
) -> Result<Vec<Vec<Table>>, AllocError>
    requires { ListsFit (map (λ ts. ts.items) first.items) (map (λ ts. ts.items) second.items) }
    ensures { IfOk result (λ lists. ListsUnion (map (λ ts. ts.items) first.items)
        (map (λ ts. ts.items) second.items) (map (λ ts. ts.items) lists.items)) }
{
    let mut lists = Vec::with_capacity(alloc, first.len())?;
    let mut others = second.into_iter();
    for list in first {
        let Some(other) = others.next() else {
            unreachable!();
        };
        lists.push(united_tables(alloc, list, other)?)?;
    }
    Ok(lists)
}

/// The rows of both, for each operand.
pub fn united_operands(
    alloc: Global,
    lefts: (Vec<Table>, Vec<Table>),
    rights: (Vec<Table>, Vec<Table>),
) -> Result<(Vec<Table>, Vec<Table>), AllocError>
    requires lefts { TablesFit lefts.0.items lefts.1.items }
    requires rights { TablesFit rights.0.items rights.1.items }
    ensures lefts { IfOk result (λ both. TablesUnion lefts.0.items lefts.1.items both.0.items) }
    ensures rights { IfOk result (λ both. TablesUnion rights.0.items rights.1.items both.1.items) }
{
    let lefts = united_tables(alloc, lefts.0, lefts.1)?;
    let rights = united_tables(alloc, rights.0, rights.1)?;
    Ok((lefts, rights))
}
