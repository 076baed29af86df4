//! The table of an atom at a time-point.
ghost use Rattle.std.specs.Prelude.{◌≡◌, IfOk};
ghost use Rattle.mfotl_model.specs.FreeVariables.{variables_in};
ghost use Rattle.mfotl_model.specs.Satisfaction.{Valuation, event_of, has_event};
ghost use Rattle.mfotl_model.specs.Tables.{has};
ghost use Rattle.eval_bool.specs.AtomSteps.{atom_rows};

use crate::matching::{atom_rows, plain_rows};
use mfotl_model::{Atom, Event, Row, TimePoint};
use relations::{Columns, Table};
use std::alloc::{AllocError, Global};
use std::marker::Model;
use std::mem;

/// An atom that reads rows off the events of one time-point after another. Its columns, the atom's
/// variables, are found once.
#[derive(Drop)]
pub struct AtomReader {
    atom: Atom,
    columns: Columns,
    // Memory for the next table's rows, of which there are none in it.
    room: Vec<Row>,
}

impl Model for AtomReader {
    ghost use Rattle.std.specs.Prelude.{◌≡◌, []};
    ghost use Rattle.mfotl_model.specs.FreeVariables.{variables_in};
    ghost use Rattle.mfotl_model.specs.declared.term.Atom.{Atom as OneAtom};

    ghost Value = { OneAtom };

    ghost view = { λ r. r.atom };

    ghost invariant = { λ r. (r.columns.items ≡ variables_in r.atom.args) × (r.room.items ≡ []) };
}

impl AtomReader {
    /// A reader of the atom. It finds the atom's columns, which no later call does.
    pub fn new(alloc: Global, atom: Atom) -> Result<Self, AllocError>
        ensures { IfOk result (λ reader. reader ≡ atom) }
    {
        let columns = Columns::from_vec(atom.variables(alloc)?);
        Ok(AtomReader {
            atom,
            columns,
            room: Vec::new(alloc),
        })
    }

    fn columns(&self, alloc: Global) -> Result<Columns, AllocError>
        ensures { IfOk result (λ columns. columns.items ≡ variables_in self.now.args) }
    {
        Columns::from_slice(alloc, self.columns.as_slice())
    }

    // An atom with as many variables as arguments has distinct variables for arguments.
    fn rows(&mut self, alloc: Global, events: &[Event]) -> Result<Vec<Row>, AllocError>
        ensures same { self.new ≡ self.old }
        ensures rows { IfOk result (λ rows. rows.items ≡ atom_rows self.old (variables_in self.old.args) events.now) }
    {
        let room = mem::replace(&mut self.room, Vec::new(alloc));
        if self.columns.len() == self.atom.args.as_slice().len() {
            plain_rows(alloc, &self.atom, events, room)
        } else {
            atom_rows(alloc, &self.atom, self.columns.as_slice(), events, room)
        }
    }

    /// The rows that the events of the time-point give to the atom's variables.
    pub fn table(&mut self, alloc: Global, point: &TimePoint) -> Result<Table, AllocError>
        ensures same { self.new ≡ self.old }
        ensures columns { IfOk result (λ table. table.columns ≡ variables_in self.old.args) }
        ensures has { IfOk result (λ table. (v : Valuation) →
            has table v ≡ has_event point.now.db (event_of v self.old)) }
    {
        let columns = self.columns(alloc)?;
        let rows = self.rows(alloc, point.db.of_pred(self.atom.pred))?;
        Ok(Table::from_rows(columns, rows))
    }

    /// Takes back rows that nobody asks for any more: those of the next table stand in their memory.
    pub fn take_back(&mut self, mut rows: Vec<Row>)
        ensures { self.new ≡ self.old }
    {
        rows.clear();
        self.room = rows;
    }
}

/// The rows that the events of the time-point give to the atom's variables.
pub fn eval_atom(alloc: Global, point: &TimePoint, atom: &Atom) -> Result<Table, AllocError>
    ensures columns { IfOk result (λ table. table.columns ≡ variables_in atom.now.args) }
    ensures has { IfOk result (λ table. (v : Valuation) →
        has table v ≡ has_event point.now.db (event_of v atom.now)) }
{
    let mut reader = AtomReader::new(alloc, atom.copy(alloc)?)?;
    reader.table(alloc, point)
}
