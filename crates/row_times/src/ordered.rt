//! Rows with the times kept for them, in order.
ghost use Rattle.std.specs.Prelude.{◌≡◌, [], List, None, Some, IfOk, OnOk, cond};
ghost use Rattle.std.specs.BTreeMap.{is_at};
ghost use Rattle.std.specs.Option.{option_or};
ghost use Rattle.mfotl_model.specs.Values.{row_cmp};
ghost use Rattle.mfotl_model.specs.declared.value.Value.{Value};
ghost use Rattle.relations.specs.KeptRows.{RowsAscend, filled, kept_for};
ghost use Rattle.row_times.specs.KeptTimes.{times_kept};

use crate::kept_row::KeptRow;
use crate::times::Times;
use mfotl_model::Row;
use std::alloc::{AllocError, Global};
use std::collections::BTreeMap;
use std::marker::Model;

/// The rows of all groups in one, in their order: `Groups::pour` fills it, and `into_kept` gives them as plain data.
#[derive(Drop)]
pub struct OrderedGroup {
    rows: BTreeMap<Row, Times>,
}

impl Model for OrderedGroup {
    ghost use Rattle.std.specs.Prelude.{List, ℕ};
    ghost use Rattle.mfotl_model.specs.declared.value.Value.{Value as OneValue};

    ghost Value = { List (List OneValue × List ℕ) };

    ghost view = { λ g. g.rows.entries };
}

fn kept_row(alloc: Global, row: Row, times: Times) -> Result<KeptRow, AllocError>
    ensures row { IfOk result (λ kept. kept.row ≡ row) }
    ensures times { IfOk result (λ kept. kept.times.items ≡ times) }
{
    let times = times.into_vec(alloc)?;
    Ok(KeptRow { row, times })
}

impl OrderedGroup {
    /// No rows. It takes no memory.
    pub fn new(alloc: Global) -> Self
        ensures { result ≡ [] }
    {
        OrderedGroup {
            rows: BTreeMap::new(alloc),
        }
    }

    /// Takes a row and a copy of its times, where it has some and isn't there yet.
    pub(crate) fn pour_row(
        &mut self,
        alloc: Global,
        row: Row,
        times: &Times,
    ) -> Result<(), AllocError>
        ensures { OnOk result ((u : List Value) → kept_for self.new u
            ≡ option_or (kept_for self.old u) (cond (is_at (row_cmp u) row) (filled times.now) None)) }
    {
        if times.is_empty() {
            return Ok(());
        }
        if self.rows.contains_key(&row) {
            return Ok(());
        }
        self.put_copy(alloc, row, times)
    }

    fn put_copy(&mut self, alloc: Global, row: Row, times: &Times) -> Result<(), AllocError>
        ensures { OnOk result ((u : List Value) → kept_for self.new u
            ≡ cond (is_at (row_cmp row) u) (Some times.now) (kept_for self.old u)) }
    {
        let times = times.copy(alloc)?;
        self.rows.insert(row, times)?;
        Ok(())
    }

    /// The rows with their times, each with a list of its own.
    pub fn into_kept(self, alloc: Global) -> Result<Vec<KeptRow>, AllocError>
        ensures rows { IfOk result (λ rows. times_kept rows.items ≡ self) }
        ensures ascend { IfOk result (λ rows. RowsAscend (times_kept rows.items)) }
    {
        let mut kept = Vec::with_capacity(alloc, self.rows.len())?;
        for (row, times) in self.rows {
            kept.push(kept_row(alloc, row, times)?)?;
        }
        Ok(kept)
    }
}
