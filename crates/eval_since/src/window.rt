//! The window of SINCE: for each row the times at which the right operand held of it and from which
//! the left one has held on.
ghost use Rattle.std.specs.Prelude.{◌≡◌, ◌||◌, ◌&&◌, ◌-◌, ◌≤◌, [], ℕ, if◌then◌else◌, is_ok, IfOk, IfSome};
ghost use Rattle.std.specs.Prelude.{IsTrue, List, None, OnErr, OnOk, length, map};
ghost use Rattle.std.specs.List.{AllByRecursion};
ghost use Rattle.mfotl_model.specs.Intervals.{in_interval};
ghost use Rattle.mfotl_model.specs.Tables.{all_apart, all_sized, has_row, part};
ghost use Rattle.mfotl_model.specs.declared.value.Value.{Value};
ghost use Rattle.row_times.specs.Groups.{NoneEmpty};
ghost use Rattle.eval_since.specs.LeftOperand.{grouping, left_has};
ghost use Rattle.relations.specs.KeptRows.{RowsAscend, filled, kept_for};
ghost use Rattle.row_times.specs.KeptTimes.{times_for, times_kept};
ghost use Rattle.eval_since.specs.SinceData.{KeepsTimes};
ghost use Rattle.eval_since.specs.WindowView.{kept_times, within};
ghost use Rattle.eval_since.specs.Windows.{Alone, Ascending, Bounded, IsBlank, Past, Placed};

use crate::contents::{Contents, restored, step};
use crate::keys::{grouping, holds_on};
use mfotl_model::{Interval, Row};
use relations::{Columns, Table, part_of};
use row_times::{KeptRow, OrderedGroup};
use std::alloc::{AllocError, Global};
use std::marker::Model;

/// The window of SINCE after some positions.
#[derive(Drop)]
pub struct Window {
    interval: Interval,
    left: Vec<u32>,
    right: Vec<u32>,
    keys: Vec<u32>,
    last: u64,
    contents: Contents,
}

impl Model for Window {
    ghost use Rattle.eval_since.specs.WindowView.{WindowOf};

    ghost Value = { WindowOf };

    ghost use Rattle.eval_since.specs.LeftOperand.{grouping};
    ghost use Rattle.eval_since.specs.Windows.{Keeps};

    ghost view = { λ k. record {
      interval = k.interval;
      left = k.left.items;
      right = k.right.items;
      keys = grouping k.left.items k.keys.items;
      last = k.last;
      groups = k.contents.groups;
    } };

    ghost invariant = { λ k. Keeps k.interval.hi k.right.items (grouping k.left.items k.keys.items) k.last
        k.contents.groups k.contents.dated.items };
}

impl Window {
    /// The window before the first position.
    pub fn new(
        alloc: Global,
        interval: Interval,
        left: Vec<u32>,
        right: Vec<u32>,
        keys: Vec<u32>,
    ) -> Self
        requires apart { IsTrue (all_apart right.items) }
        ensures state { result ≡ record {
          interval = interval;
          left = left.items;
          right = right.items;
          keys = grouping left.items keys.items;
          last = 0;
          groups = [];
        } }
    {
        Window {
            interval,
            left,
            right,
            keys,
            last: 0,
            contents: Contents::new(alloc),
        }
    }

    /// The window over the same columns with these rows, after some positions, the last of which has the
    /// time `last`.
    pub fn resumed(self, alloc: Global, last: u64, rows: Vec<KeptRow>) -> Result<Self, AllocError>
        requires rows { RowsAscend (times_kept rows.items) }
        requires sized { IsTrue (all_sized (length self.right) (map (λ k. k.row) rows.items)) }
        requires kept { AllByRecursion (λ k. KeepsTimes self.interval.hi last k.times.items) rows.items }
        ensures interval { IfOk result (λ window. window.interval ≡ self.interval) }
        ensures left { IfOk result (λ window. window.left ≡ self.left) }
        ensures right { IfOk result (λ window. window.right ≡ self.right) }
        ensures last { IfOk result (λ window. window.last ≡ last) }
        ensures kept { IfOk result (λ window. (u : List Value) →
            kept_times window u ≡ times_for rows.items u) }
        ensures blank { IfOk result (λ window. rows.items ≡ [] → IsBlank window.groups) }
    {
        let Window {
            interval,
            left,
            right,
            keys,
            last: _,
            contents: _,
        } = self;
        let contents = restored(
            alloc,
            &interval,
            right.as_slice(),
            grouping(left.as_slice(), keys.as_slice()),
            last,
            rows,
        )?;
        Ok(Window {
            interval,
            left,
            right,
            keys,
            last,
            contents,
        })
    }

    /// One position more. Without memory the window is empty.
    pub fn step(
        &mut self,
        alloc: Global,
        negated: bool,
        lefts: &Table,
        rights: Table,
        now: u64,
    ) -> Result<(), AllocError>
        requires rises { self.old.last ≤ now }
        requires columns { rights.columns ≡ self.old.right }
        ensures within { OnOk result ((x : ℕ) (u : List Value) → now ≤ x → within self.new x u
            ≡ ((within self.old x u
            && left_has negated lefts.now.rows (part self.old.right self.old.left u))
            || (in_interval self.old.interval (x - now) && has_row rights.rows u))) }
        ensures blank { OnErr result (IsBlank self.new.groups) }
        ensures last { self.new.last ≡ (if is_ok result then now else self.old.last) }
        ensures interval { self.new.interval ≡ self.old.interval }
        ensures left { self.new.left ≡ self.old.left }
        ensures right { self.new.right ≡ self.old.right }
        ensures keys { self.new.keys ≡ self.old.keys }
    {
        let right = self.right.as_slice();
        let left = self.left.as_slice();
        let keys = grouping(left, self.keys.as_slice());
        let rows = rights.into_rows();
        let stepped = step(
            alloc,
            &mut self.contents,
            &self.interval,
            right,
            keys,
            left.is_empty(),
            negated,
            lefts,
            rows,
            self.last,
            now,
        );
        if let Err(error) = stepped {
            self.contents = Contents::new(alloc);
            return Err(error);
        }
        self.last = now;
        Ok(())
    }

    // the part of a row that the left operand speaks of
    fn left_part(&self, alloc: Global, row: &Row) -> Result<Row, AllocError>
        ensures { IfOk result (λ left. left ≡ part self.now.right self.now.left row.now) }
    {
        part_of(
            alloc,
            self.right.as_slice(),
            self.left.as_slice(),
            row.values(),
        )
    }

    // the part of a row that it is grouped by
    fn key(&self, alloc: Global, row: &Row) -> Result<Row, AllocError>
        ensures { IfOk result (λ key. key ≡ part self.now.right self.now.keys row.now) }
    {
        part_of(alloc, self.right.as_slice(), self.keys(), row.values())
    }

    // whether some kept time of a row lies in the interval, seen from `x`
    fn within(&self, key: &Row, row: &Row, x: u64) -> bool
        requires { key.now ≡ part self.now.right self.now.keys row.now }
        ensures { result ≡ within self.now x row.now }
    {
        self.contents.groups.reaches(key, row, &self.interval, x)
    }

    // whether the row is kept, and the left operand holds of it
    fn goes_on(
        &self,
        alloc: Global,
        negated: bool,
        lefts: &Table,
        row: &Row,
        now: u64,
    ) -> Result<bool, AllocError>
        ensures { IfOk result (λ yes. yes ≡ (within self.now now row.now
            && left_has negated lefts.now.rows (part self.now.right self.now.left row.now))) }
    {
        let key = self.key(alloc, row)?;
        if !self.within(&key, row, now) {
            return Ok(false);
        }
        let lead = self.left_part(alloc, row)?;
        Ok(holds_on(negated, lefts, &lead))
    }

    // whether the right operand holds of the row, and the interval has the position itself
    fn begins(&self, rights: &Table, row: &Row) -> bool
        ensures { result ≡ (in_interval self.now.interval 0 && has_row rights.now.rows row.now) }
    {
        self.interval.contains(0) && rights.contains(row)
    }

    /// Whether a row is one of the next position's, whose time is `now`: what was goes on where the left
    /// operand holds, and the right one holds at the position itself.
    pub fn is_next(
        &self,
        alloc: Global,
        negated: bool,
        lefts: &Table,
        rights: &Table,
        row: &Row,
        now: u64,
    ) -> Result<bool, AllocError>
        ensures { IfOk result (λ yes. yes ≡ ((within self.now now row.now
            && left_has negated lefts.now.rows (part self.now.right self.now.left row.now))
            || (in_interval self.now.interval 0 && has_row rights.now.rows row.now))) }
    {
        Ok(self.goes_on(alloc, negated, lefts, row, now)? || self.begins(rights, row))
    }

    /// The rows of which some kept time lies in the interval, seen from the last time.
    pub fn table(&self, alloc: Global) -> Result<Table, AllocError>
        ensures columns { IfOk result (λ table. table.columns ≡ self.now.right) }
        ensures rows { IfOk result (λ table. (u : List Value) →
            has_row table.rows u ≡ within self.now self.now.last u) }
    {
        let mut rows = Vec::new(alloc);
        self.contents
            .groups
            .push_reaching(alloc, &mut rows, &self.interval, self.last)?;
        let columns = Columns::from_slice(alloc, self.right.as_slice())?;
        Ok(Table::from_rows(columns, rows))
    }

    /// Those of these rows whose part at the columns of `keys` is one of its rows.
    pub fn table_of(&self, alloc: Global, keys: &Table) -> Result<Table, AllocError>
        ensures columns { IfOk result (λ table. table.columns ≡ self.now.right) }
        ensures rows { IfOk result (λ table. (u : List Value) →
            has_row table.rows u ≡ (within self.now self.now.last u
            && has_row keys.now.rows (part self.now.right keys.now.columns u))) }
    {
        let mut rows = Vec::new(alloc);
        self.push_table_of(alloc, &mut rows, keys)?;
        let columns = Columns::from_slice(alloc, self.right.as_slice())?;
        Ok(Table::from_rows(columns, rows))
    }

    fn push_table_of(
        &self,
        alloc: Global,
        out: &mut Vec<Row>,
        keys: &Table,
    ) -> Result<(), AllocError>
        ensures { OnOk result ((u : List Value) → has_row out.new.items u
            ≡ (has_row out.old.items u || (within self.now self.now.last u
            && has_row keys.now.rows (part self.now.right keys.now.columns u)))) }
    {
        if keys.columns() == self.keys() {
            self.push_found(alloc, out, keys)
        } else {
            self.push_matching(alloc, out, keys)
        }
    }

    // Looks up the group of each key.
    fn push_found(&self, alloc: Global, out: &mut Vec<Row>, keys: &Table) -> Result<(), AllocError>
        requires same { keys.now.columns ≡ self.now.keys }
        ensures { OnOk result ((u : List Value) → has_row out.new.items u
            ≡ (has_row out.old.items u || (within self.now self.now.last u
            && has_row keys.now.rows (part self.now.right keys.now.columns u)))) }
    {
        let groups = &self.contents.groups;
        groups.push_found(alloc, out, &self.interval, self.last, keys.rows())
    }

    // Looks at all rows.
    fn push_matching(
        &self,
        alloc: Global,
        out: &mut Vec<Row>,
        keys: &Table,
    ) -> Result<(), AllocError>
        ensures { OnOk result ((u : List Value) → has_row out.new.items u
            ≡ (has_row out.old.items u || (within self.now self.now.last u
            && has_row keys.now.rows (part self.now.right keys.now.columns u)))) }
    {
        let right = self.right.as_slice();
        let groups = &self.contents.groups;
        groups.push_matching(alloc, out, &self.interval, self.last, right, keys)
    }

    /// The columns by which rows are grouped.
    pub fn keys(&self) -> &[u32]
        ensures { result.now ≡ self.now.keys }
    {
        grouping(self.left.as_slice(), self.keys.as_slice())
    }

    pub fn left(&self) -> &[u32]
        ensures { result.now ≡ self.now.left }
    {
        self.left.as_slice()
    }

    /// The rows with the times kept for them, which ascend.
    pub fn kept(&self, alloc: Global) -> Result<Vec<KeptRow>, AllocError>
        ensures kept { IfOk result (λ rows. (u : List Value) →
            kept_for (times_kept rows.items) u ≡ filled (kept_times self.now u)) }
        ensures rows { IfOk result (λ rows. RowsAscend (times_kept rows.items)) }
        ensures sized { IfOk result (λ rows.
            IsTrue (all_sized (length self.now.right) (map (λ k. k.row) rows.items))) }
        ensures each { IfOk result (λ rows.
            AllByRecursion (λ k. KeepsTimes self.now.interval.hi self.now.last k.times.items) rows.items) }
    {
        let mut flat = OrderedGroup::new(alloc);
        self.contents.groups.pour(alloc, &mut flat)?;
        let rows = flat.into_kept(alloc)?;
        Ok(rows)
    }

    pub fn last(&self) -> u64
        ensures { result ≡ self.now.last }
    {
        self.last
    }

    pub fn right(&self) -> &[u32]
        ensures right { result.now ≡ self.now.right }
        ensures apart { IsTrue (all_apart self.now.right) }
    {
        self.right.as_slice()
    }

    pub fn interval(&self) -> &Interval
        ensures { result.now ≡ self.now.interval }
    {
        &self.interval
    }

    /// What a window keeps, and no more.
    pub fn is_bounded(&self)
        ensures bounded { IfSome self.now.interval.hi (λ hi.
            Bounded hi self.now.last self.now.groups) }
        ensures past { Past self.now.last self.now.groups }
        ensures ascend { Ascending self.now.groups }
        ensures alone { self.now.interval.hi ≡ None → Alone self.now.groups }
        ensures some { NoneEmpty self.now.groups }
        ensures placed { Placed self.now.right self.now.keys self.now.groups }
    {
        let _ = &self.last;
    }
}
