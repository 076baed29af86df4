//! The rows that events give to the variables of an atom.
ghost use Rattle.std.specs.Prelude.{◌≡◌, ◌++◌, ◌∷◌, [], IfOk, OnOk, length};
ghost use Rattle.mfotl_model.specs.FreeVariables.{variables_in};
ghost use Rattle.mfotl_model.specs.Matching.{is_match};
ghost use Rattle.eval_bool.specs.AtomSteps.{atom_rows};

use mfotl_model::{Atom, Event, Row};
use std::alloc::{AllocError, Global};

/// The rows over these columns of those of the events that the atom stands for. They stand in the memory of an empty
/// list.
pub(crate) fn atom_rows(
    alloc: Global,
    atom: &Atom,
    columns: &[u32],
    events: &[Event],
    mut rows: Vec<Row>,
) -> Result<Vec<Row>, AllocError>
    requires empty { rows.items ≡ [] }
    ensures { IfOk result (λ rows.
        rows.items ≡ atom_rows atom.now columns.now events.now) }
{
    for event in events {
        if atom.is_match(event) {
            rows.push(atom.row_read(alloc, columns, event)?)?;
        }
    }
    Ok(rows)
}

/// The same over the atom's variables, where its arguments are distinct variables: the events' own values.
pub(crate) fn plain_rows(
    alloc: Global,
    atom: &Atom,
    events: &[Event],
    mut rows: Vec<Row>,
) -> Result<Vec<Row>, AllocError>
    requires empty { rows.items ≡ [] }
    requires plain { length (variables_in atom.now.args) ≡ length atom.now.args }
    ensures { IfOk result (λ rows.
        rows.items ≡ atom_rows atom.now (variables_in atom.now.args) events.now) }
{
    rows.reserve_exact(events.len())?;
    for event in events {
        if is_plain_match(atom, event) {
            rows.push(event.args.copy(alloc)?)?;
        }
    }
    Ok(rows)
}

// Distinct variables stand for whatever values there are, one for each.
#[tactic(auto, using(crate::proofs::PlainLemmas::plain_match, crate::proofs::PlainLemmas::other_length, mfotl_model::proofs::AtomLemmas::match_by_pred))]
fn is_plain_match(atom: &Atom, event: &Event) -> bool
    requires plain { length (variables_in atom.now.args) ≡ length atom.now.args }
    ensures { result ≡ is_match atom.now event.now }
{
    atom.pred == event.pred && atom.args.as_slice().len() == event.args.values().len()
}
