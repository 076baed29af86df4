//! The table of a quantified formula.
ghost use Rattle.std.specs.Prelude.{◌≡◌, ◌↔◌, IfOk, true};
ghost use Rattle.mfotl_model.specs.FreeVariables.{without};
ghost use Rattle.mfotl_model.specs.Satisfaction.{Valuation, with_value};
ghost use Rattle.mfotl_model.specs.Tables.{has};
ghost use Rattle.mfotl_model.specs.declared.value.Value.{Value};

use relations::Table;
use std::alloc::{AllocError, Global};

/// The rows of a table without the variable that is quantified, each once.
pub fn eval_exists(alloc: Global, table: Table, var: u32) -> Result<Table, AllocError>
    ensures columns { IfOk result (λ narrow. narrow.columns ≡ without var table.columns) }
    ensures has { IfOk result (λ narrow. (v : Valuation) → has narrow v ≡ true ↔
        ((a : Value) × (has table (with_value v var a) ≡ true))) }
{
    let narrow = table.exists(alloc, var)?;
    Ok(narrow)
}
