//! Changes of many rows of one group.
ghost use Rattle.std.specs.Prelude.{◌≡◌, List, OnOk, cond};
ghost use Rattle.mfotl_model.specs.Tables.{has_row};
ghost use Rattle.mfotl_model.specs.declared.value.Value.{Value};
ghost use Rattle.relations.specs.KeptRows.{list_for};
ghost use Rattle.row_times.specs.Groups.{HaveTimes};
ghost use Rattle.row_times.specs.PackedRows.{alone, packed_rows};
ghost use Rattle.row_times.specs.Times.{ArePast, added, recent};

use crate::group::Group;
use crate::packed_rows::PackedRows;
use mfotl_model::{Row, Value as OneValue};
use std::alloc::{AllocError, Global};

impl Group {
    /// The times of each of these rows, with one more.
    pub fn add_all(
        &mut self,
        alloc: Global,
        rows: &[Row],
        x: u64,
        bounded: bool,
    ) -> Result<(), AllocError>
        requires { (v : List Value) → ArePast x (list_for self.old v) }
        ensures times { OnOk result ((v : List Value) → list_for self.new v
            ≡ cond (has_row rows.now v) (added bounded (list_for self.old v) x) (list_for self.old v)) }
        ensures some { OnOk result (HaveTimes self.old → HaveTimes self.new) }
    {
        for row in rows {
            self.add(alloc, row.copy(alloc)?, x, bounded)?;
        }
        Ok(())
    }

    fn forget_rows(&mut self, rows: Vec<Row>, hi: u64, now: u64)
        ensures times { (v : List Value) → list_for self.new v
            ≡ cond (has_row rows.items v) (recent hi now (list_for self.old v)) (list_for self.old v) }
        ensures some { HaveTimes self.old → HaveTimes self.new }
    {
        for row in rows {
            self.forget(row, hi, now);
        }
    }

    fn forget_values(
        &mut self,
        alloc: Global,
        values: Vec<OneValue>,
        hi: u64,
        now: u64,
    ) -> Result<(), AllocError>
        ensures times { OnOk result ((v : List Value) → list_for self.new v
            ≡ cond (has_row (alone values.items) v) (recent hi now (list_for self.old v)) (list_for self.old v)) }
        ensures some { OnOk result (HaveTimes self.old → HaveTimes self.new) }
    {
        for value in values {
            self.forget(Row::empty().push(alloc, value)?, hi, now);
        }
        Ok(())
    }

    /// Forgets the times of each of these rows that lie further back than `hi`.
    pub fn forget_all(
        &mut self,
        alloc: Global,
        rows: PackedRows,
        hi: u64,
        now: u64,
    ) -> Result<(), AllocError>
        ensures times { OnOk result ((v : List Value) → list_for self.new v
            ≡ cond (has_row (packed_rows rows) v) (recent hi now (list_for self.old v)) (list_for self.old v)) }
        ensures some { OnOk result (HaveTimes self.old → HaveTimes self.new) }
    {
        match rows {
            PackedRows::One(value) => {
                self.forget(Row::empty().push(alloc, value)?, hi, now);
                Ok(())
            }
            PackedRows::Alone(values) => self.forget_values(alloc, values, hi, now),
            PackedRows::Wide(rows) => {
                self.forget_rows(rows, hi, now);
                Ok(())
            }
        }
    }
}
