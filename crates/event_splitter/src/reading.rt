//! What events give to the variables of atoms.
ghost use Rattle.std.specs.Prelude.{◌≡◌, IfOk};
ghost use Rattle.std.specs.List.{flat_map};
ghost use Rattle.mfotl_model.specs.FreeVariables.{variable_in};
ghost use Rattle.slice_strategy.specs.Sharing.{IsFirst};
ghost use Rattle.event_splitter.specs.Readings.{is_near, reading_of, readings_of};

use mfotl_model::{Atom, Event, Partial, Row, Term};
use slice_strategy::Slicer;
use std::alloc::{AllocError, Global};
use std::marker::Model;

/// The variables of an atom, and the values that an event gives to them.
#[derive(Drop)]
pub(crate) struct Reading {
    columns: Vec<u32>,
    row: Row,
}

impl Model for Reading {
    ghost use Rattle.std.specs.Prelude.{◌≡◌, length};
    ghost use Rattle.event_splitter.specs.Readings.{ReadingOf};

    ghost Value = { ReadingOf };

    ghost view = { λ r. record { columns = r.columns.items; row = r.row } };

    ghost invariant = { λ r. length r.columns.items ≡ length r.row };
}

impl Reading {
    pub(crate) fn new(alloc: Global, atom: &Atom, event: &Event) -> Result<Self, AllocError>
        ensures { IfOk result (λ reading. reading ≡ reading_of event.now atom.now) }
    {
        let columns = variables(alloc, atom.args.as_slice())?;
        let row = atom.row_read(alloc, columns.as_slice(), event)?;
        Ok(Reading { columns, row })
    }

    /// The first worker from `from` on that it may be of concern to.
    pub(crate) fn next_near<S: Slicer>(&self, slicer: &S, from: u32) -> Option<u32>
        ensures { IsFirst (λ k. is_near (S.region slicer.now k) self.now) from (S.count slicer.now) result }
    {
        let part = Partial {
            cols: &self.columns,
            row: &self.row,
        };
        slicer.next_near(from, &part)
    }
}

// The variables of the terms, as often as they stand there.
fn variables(alloc: Global, terms: &[Term]) -> Result<Vec<u32>, AllocError>
    ensures { IfOk result (λ vars. vars.items ≡ flat_map variable_in terms.now) }
{
    let mut vars = Vec::new(alloc);
    for term in terms {
        if let Term::Var(x) = term {
            vars.push(*x)?;
        }
    }
    Ok(vars)
}

/// What the event gives to the atoms that stand for it.
pub(crate) fn readings(
    alloc: Global,
    atoms: &[Atom],
    event: &Event,
) -> Result<Vec<Reading>, AllocError>
    ensures { IfOk result (λ readings. readings.items ≡ readings_of atoms.now event.now) }
{
    let mut readings = Vec::new(alloc);
    for atom in atoms {
        if atom.is_match(event) {
            readings.push(Reading::new(alloc, atom, event)?)?;
        }
    }
    Ok(readings)
}
