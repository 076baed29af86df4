//! The end of a policy: what is open is closed, and the columns are told.
ghost use Rattle.std.specs.Prelude.{◌≡◌, slice_get};
ghost use Rattle.mfotl_model.specs.Formulas.{Form, form};
ghost use Rattle.mfotl_parse.specs.Limits.{max_free};
ghost use Rattle.mfotl_parse.specs.Reading.{checked_at_end, is_closed};
ghost use Rattle.mfotl_parse.specs.Reading as reading_words;
ghost use Rattle.mfotl_parse.specs.Reduction.{reduce};
ghost use Rattle.mfotl_parse.specs.SymbolTable.{uneven_pair};
ghost use Rattle.mfotl_parse.specs.Views.{context_of, names_met, policy_of, Gives};

use crate::fault::PolicyFault;
use crate::stack;
use crate::state::Context;
use crate::symbol_table::SymbolTable;
use mfotl_model::{Formula, Policy, Vars};
use std::alloc::Global;

/// The policy whose last operand was read.
pub fn close(
    alloc: Global,
    context: &mut Context,
    formula: Box<Formula>,
    end: u64,
) -> Result<Policy, PolicyFault>
    ensures { Gives policy_of result (reading_words.closed_at_end (context_of context.old).names
        (reduce 0 (form formula.value) (context_of context.old).stack).form
        (is_closed (reduce 0 (form formula.value) (context_of context.old).stack).stack) end) }
{
    let whole = stack::reduce(alloc, &mut context.frames, 0, formula)?;
    with_columns(alloc, context, whole, end)
}

/// The formula with its columns, where the text ends behind it.
fn with_columns(
    alloc: Global,
    context: &Context,
    formula: Box<Formula>,
    end: u64,
) -> Result<Policy, PolicyFault>
    ensures { Gives policy_of result (reading_words.closed_at_end (context_of context.now).names (form formula.value)
        (is_closed (context_of context.now).stack) end) }
{
    let vars = columns_at(alloc, context, end)?;
    Ok(Policy {
        formula: Box::into_inner(formula),
        vars,
    })
}

/// The columns of any formula behind which the text ends here, where nothing may be open.
fn columns_at(alloc: Global, context: &Context, end: u64) -> Result<Vars, PolicyFault>
    ensures { (f : Form) → Gives (λ vars. record { formula = f; vars = vars }) result
        (reading_words.closed_at_end (context_of context.now).names f (is_closed (context_of context.now).stack) end) }
{
    if stack::is_closed(&context.frames) {
        columns(alloc, &context.names)
    } else {
        Err(PolicyFault::Syntax(end))
    }
}

/// What sorts and free variables show, where they show a fault.
fn fault_of_names(names: &SymbolTable) -> Option<PolicyFault>
    ensures { result ≡ reading_words.fault_of_names (names_met names.now).clash (uneven_pair (names_met names.now))
        (slice_get (names_met names.now).free max_free) }
{
    if let Some(at) = names.clash {
        return Some(PolicyFault::SortClash(at));
    }
    if let Some(pair) = names.uneven_pair() {
        return Some(PolicyFault::SortClash(pair.at));
    }
    match names.ninth_free() {
        Some(at) => Some(PolicyFault::TooManyVariables(at)),
        None => None,
    }
}

/// The columns of any formula, unless sorts clash or there are too many free variables.
fn columns(alloc: Global, names: &SymbolTable) -> Result<Vars, PolicyFault>
    ensures { (f : Form) → Gives (λ vars. record { formula = f; vars = vars }) result
        (checked_at_end (names_met names.now) f) }
{
    match fault_of_names(names) {
        Some(fault) => Err(fault),
        None => Ok(names.vars(alloc)?),
    }
}
