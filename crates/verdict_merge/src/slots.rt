//! A slot for each time-point, from the next on.
ghost use Rattle.std.specs.Prelude.{◌≡◌, ◌++◌, ◌∷◌, [], ◌≤◌, IfOk, OnOk, drop, length, map, option_copied};
ghost use Rattle.mfotl_model.specs.Ascending.{ascending};
ghost use Rattle.mfotl_model.specs.Values.{row_cmp};
ghost use Rattle.verdict_merge.specs.Gathers.{gathered_rows};
ghost use Rattle.verdict_merge.specs.Slots.{first_held, held, put_in};

use crate::arrived::Arrived;
use crate::group::Group;
use mfotl_model::RowList;
use std::alloc::{AllocError, Global};
use std::collections::VecDeque;

// What the first slot holds.
pub(crate) fn front(slots: &VecDeque<Option<Group>>) -> Option<&Group>
    ensures { held (option_copied result) ≡ first_held (map held slots.now.items) }
{
    slots.front()?.as_ref()
}

// Takes the first slot out.
pub(crate) fn pop(slots: &mut VecDeque<Option<Group>>) -> Option<Group>
    ensures first { held result ≡ first_held (map held slots.old.items) }
    ensures left { map held slots.new.items ≡ drop 1 (map held slots.old.items) }
{
    slots.pop_front()?
}

// All rows of a slot in ascending order, each once.
pub(crate) fn slot_rows(alloc: Global, slot: Option<Group>) -> Result<RowList, AllocError>
    ensures { IfOk result (λ rows. rows ≡ ascending row_cmp (gathered_rows (map (λ a. a.rows) (held slot)))) }
{
    match slot {
        Some(group) => group.into_rows(alloc),
        None => Ok(RowList::new(Vec::new(alloc))),
    }
}

// Puts Rows behind those of a slot. Where there are fewer slots, empty ones come in between.
pub(crate) fn put(
    slots: &mut VecDeque<Option<Group>>,
    alloc: Global,
    index: usize,
    arrived: Arrived,
) -> Result<(), AllocError>
    ensures { OnOk result (map held slots.new.items ≡ put_in index arrived (map held slots.old.items)) }
{
    if index < slots.len() {
        add(&mut slots[index], alloc, arrived)?;
        return Ok(());
    }
    fill(slots, index)?;
    append(slots, alloc, arrived)?;
    Ok(())
}

// Adds a slot of these Rows.
fn append(
    slots: &mut VecDeque<Option<Group>>,
    alloc: Global,
    arrived: Arrived,
) -> Result<(), AllocError>
    ensures { OnOk result (map held slots.new.items ≡ map held slots.old.items ++ (arrived ∷ []) ∷ []) }
{
    slots.reserve(1)?;
    slots.push_back_reserved(Some(Group::new(alloc, arrived)));
    Ok(())
}

// Puts Rows behind those of a slot.
fn add(slot: &mut Option<Group>, alloc: Global, arrived: Arrived) -> Result<(), AllocError>
    ensures { OnOk result (held slot.new ≡ held slot.old ++ arrived ∷ []) }
{
    if let Some(group) = slot {
        return group.push(arrived);
    }
    *slot = Some(Group::new(alloc, arrived));
    Ok(())
}

// Adds empty slots until there are so many. Where memory doesn't suffice for all, none is added.
fn fill(slots: &mut VecDeque<Option<Group>>, count: usize) -> Result<(), AllocError>
    requires { length slots.old.items ≤ count }
    ensures len { OnOk result (length slots.new.items ≡ count) }
    ensures same { OnOk result ((a : Arrived) → put_in count a (map held slots.new.items)
        ≡ put_in count a (map held slots.old.items)) }
{
    if slots.len() == count {
        return Ok(());
    }
    slots.reserve(count - slots.len())?;
    for _ in slots.len()..count {
        slots.push_back(None)?;
    }
    Ok(())
}
