//! Rows, alone or with what is kept for them.
ghost use Rattle.std.specs.Prelude.{◌≡◌, IfOk};

use eval_until::{KeptMarks, KeptStart};
use mfotl_model::Row;
use row_times::KeptRow;
use std::alloc::{AllocError, Global};

/// A row, alone or with what is kept for it.
pub(crate) trait Kept: Drop + Sized {
    ghost use Rattle.std.specs.Prelude.{List};
    ghost use Rattle.mfotl_model.specs.declared.value.Value.{Value};

    // what there is to tell of it
    ghost Told: { Type 0 };

    ghost told: { Self → Told };

    // its row, by what there is to tell
    ghost row_of: { Told → List Value };

    fn row(&self) -> &Row
        ensures { result.now ≡ row_of (told self.now) };

    fn copied(&self, alloc: Global) -> Result<Self, AllocError>
        ensures { IfOk result (λ copy. told copy ≡ told self.now) };
}

impl Kept for Row {
    ghost use Rattle.std.specs.Prelude.{List};
    ghost use Rattle.mfotl_model.specs.declared.value.Value.{Value};

    ghost Told = { List Value };

    ghost told = { λ row. row };

    ghost row_of = { λ row. row };

    fn row(&self) -> &Row {
        self
    }

    fn copied(&self, alloc: Global) -> Result<Self, AllocError> {
        self.copy(alloc)
    }
}

impl Kept for KeptRow {
    ghost use Rattle.std.specs.Prelude.{ℕ, List};
    ghost use Rattle.mfotl_model.specs.declared.value.Value.{Value};

    ghost Told = { List Value × List ℕ };

    ghost told = { λ k. (k.row, k.times.items) };

    ghost row_of = { λ k. k.0 };

    fn row(&self) -> &Row {
        &self.row
    }

    fn copied(&self, alloc: Global) -> Result<Self, AllocError> {
        let row = self.row.copy(alloc)?;
        let times = Vec::from_slice(alloc, &self.times)?;
        Ok(KeptRow { row, times })
    }
}

impl Kept for KeptStart {
    ghost use Rattle.std.specs.Prelude.{ℕ, List};
    ghost use Rattle.mfotl_model.specs.declared.value.Value.{Value};

    ghost Told = { List Value × ℕ };

    ghost told = { λ k. (k.row, k.start) };

    ghost row_of = { λ k. k.0 };

    fn row(&self) -> &Row {
        &self.row
    }

    fn copied(&self, alloc: Global) -> Result<Self, AllocError> {
        let row = self.row.copy(alloc)?;
        Ok(KeptStart {
            row,
            start: self.start,
        })
    }
}

impl Kept for KeptMarks {
    ghost use Rattle.std.specs.Prelude.{List};
    ghost use Rattle.mfotl_model.specs.declared.value.Value.{Value};
    ghost use Rattle.until_rows.specs.declared.recalled.Mark.{Mark};

    ghost Told = { List Value × List Mark };

    ghost told = { λ k. (k.row, k.marks.items) };

    ghost row_of = { λ k. k.0 };

    fn row(&self) -> &Row {
        &self.row
    }

    fn copied(&self, alloc: Global) -> Result<Self, AllocError> {
        let row = self.row.copy(alloc)?;
        let marks = Vec::from_slice(alloc, &self.marks)?;
        Ok(KeptMarks { row, marks })
    }
}
