//! An EXISTS takes its operand's tables.
ghost use Rattle.std.specs.Prelude.{◌≡◌, ◌++◌, ◌∷◌, [], IfOk, OnOk};
ghost use Rattle.mfotl_model.specs.Tables.{TableOf};
ghost use Rattle.monitor_nodes.specs.Quantified.{IsWithout, Quantifies};

use crate::tables::Tables;
use relations::Table;
use std::alloc::{AllocError, Global};

/// The tables without a variable.
pub fn quantified(alloc: Global, tables: Tables, var: u32) -> Result<Tables, AllocError>
    ensures { IfOk result (λ without. Quantifies var tables without) }
{
    let mut without = Tables::new();
    push_tables(alloc, &mut without, tables, var)?;
    Ok(without)
}

fn push_tables(
    alloc: Global,
    without: &mut Tables,
    tables: Tables,
    var: u32,
) -> Result<(), AllocError>
    requires { without.old ≡ [] }
    ensures { OnOk result (Quantifies var tables without.new) }
{
    for table in tables {
        push_quantified(alloc, without, table, var)?;
    }
    Ok(())
}

fn push_quantified(
    alloc: Global,
    tables: &mut Tables,
    table: Table,
    var: u32,
) -> Result<(), AllocError>
    ensures { OnOk result ((quantified : TableOf) × IsWithout var table quantified
        × (tables.new ≡ tables.old ++ quantified ∷ [])) }
{
    tables.push(alloc, table.exists(alloc, var)?)
}
