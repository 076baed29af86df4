//! The Rows of one time-point that wait, in the order in which they came.
ghost use Rattle.std.specs.Prelude.{◌≡◌, ◌++◌, ◌∷◌, [], IfOk, OnOk, Some, length, map};
ghost use Rattle.std.specs.List.{flat_map};
ghost use Rattle.mfotl_model.specs.Ascending.{ascending};
ghost use Rattle.mfotl_model.specs.Values.{row_cmp};
ghost use Rattle.verdict_merge.specs.Gathers.{gathered_rows};
ghost use Rattle.verdict_merge.specs.Slots.{first_of};

use crate::arrived::Arrived;
use crate::merge::{merged, ordered};
use crate::rows::Rows;
use mfotl_model::{Row, RowList};
use std::alloc::{AllocError, Global};
use std::marker::Model;

// There is at least one. One that is alone takes no memory beside its slot.
#[derive(Drop)]
pub(crate) struct Group {
    first: Arrived,
    more: Vec<Arrived>,
}

impl Model for Group {
    ghost use Rattle.std.specs.Prelude.{List, ◌∷◌};
    ghost use Rattle.verdict_merge.specs.declared.arrived.Arrived.{Arrived as Came};

    ghost Value = { List Came };

    ghost view = { λ g. g.first ∷ g.more.items };
}

impl Group {
    pub(crate) fn new(alloc: Global, arrived: Arrived) -> Self
        ensures { result ≡ arrived ∷ [] }
    {
        Group {
            first: arrived,
            more: Vec::new(alloc),
        }
    }

    // Puts Rows behind the others.
    pub(crate) fn push(&mut self, arrived: Arrived) -> Result<(), AllocError>
        ensures { OnOk result (self.new ≡ self.old ++ arrived ∷ []) }
    {
        self.more.push(arrived)?;
        Ok(())
    }

    // How many Rows there are.
    pub(crate) fn len(&self) -> usize
        ensures { result ≡ length self.now }
    {
        1 + self.more.len()
    }

    // The Rows that came first.
    pub(crate) fn first(&self) -> &Rows
        ensures { Some result.now ≡ first_of (map (λ a. a.rows) self.now) }
    {
        &self.first.rows
    }

    // All their rows, merged. Those that are alone are handed on as they are.
    pub(crate) fn into_rows(self, alloc: Global) -> Result<RowList, AllocError>
        ensures { IfOk result (λ rows. rows ≡ ascending row_cmp (gathered_rows (map (λ a. a.rows) self))) }
    {
        let first = self.first.rows.rows.into_vec();
        if self.more.is_empty() {
            return Ok(ordered(first));
        }
        let lists = all_lists(alloc, first, self.more)?;
        merged(alloc, lists)
    }
}

// The rows of each of these Rows that has some, after a first list.
fn all_lists(
    alloc: Global,
    first: Vec<Row>,
    more: Vec<Arrived>,
) -> Result<Vec<Vec<Row>>, AllocError>
    ensures { IfOk result (λ lists. flat_map (λ list. list.items) lists.items
        ≡ first.items ++ gathered_rows (map (λ a. a.rows) more.items)) }
{
    let mut lists = Vec::new(alloc);
    push_some(&mut lists, first)?;
    for arrived in more {
        push_some(&mut lists, arrived.rows.rows.into_vec())?;
    }
    Ok(lists)
}

// A list without rows is left out.
fn push_some(lists: &mut Vec<Vec<Row>>, list: Vec<Row>) -> Result<(), AllocError>
    ensures { OnOk result (flat_map (λ list. list.items) lists.new.items
        ≡ flat_map (λ list. list.items) lists.old.items ++ list.items) }
{
    if !list.is_empty() {
        lists.push(list)?;
    }
    Ok(())
}
