//! Where rows' runs begin, each found by its row. A start that has no others beside it stands in place.
ghost use Rattle.std.specs.Prelude.{◌≡◌, ◌∷◌, [], ℕ, true, IfOk, List, None, OnOk, Some, cond};
ghost use Rattle.std.specs.BTreeMap.{is_at};
ghost use Rattle.std.specs.Option.{unwrap_or};
ghost use Rattle.mfotl_model.specs.Values.{row_cmp};
ghost use Rattle.mfotl_model.specs.declared.value.Value.{Value};
ghost use Rattle.relations.specs.KeptRows.{RowsAscend, RowsDiffer, kept_for, last_for};
ghost use Rattle.until_rows.specs.InOrder.{in_order};
ghost use Rattle.until_rows.specs.Starts.{starts_among};

use crate::ordered::ordered_starts;
use mfotl_model::Row;
use std::alloc::{AllocError, Global};
use std::collections::{BTreeMap, HashMap};
use std::marker::Model;

/// Where rows' present runs begin: of positions at which the left operand held, or if it is negated, didn't hold. A row
/// without a start has no run, or of a negated operand one that began with the first position.
#[derive(Drop)]
pub struct RunStarts {
    // where this is a start, there is no other, and `many` tells nothing
    lone: Option<(Row, u64)>,
    many: HashMap<Row, u64>,
}

impl Model for RunStarts {
    ghost use Rattle.std.specs.Prelude.{List, ℕ};
    ghost use Rattle.mfotl_model.specs.declared.value.Value.{Value as OneValue};
    ghost use Rattle.until_rows.specs.Starts.{starts_among};

    ghost Value = { List (List OneValue × ℕ) };

    ghost view = { λ s. starts_among s.lone s.many.entries };
}

// a lone start goes into the map, where others come
fn spread(lone: &mut Option<(Row, u64)>, many: &mut HashMap<Row, u64>) -> Result<(), AllocError>
    ensures lone { OnOk result (lone.new ≡ None) }
    ensures many { OnOk result ((w : List Value) → kept_for many.new.entries w
        ≡ kept_for (starts_among lone.old many.old.entries) w) }
{
    let Some((row, start)) = lone.take() else {
        return Ok(());
    };
    many.clear();
    many.insert(row, start)?;
    Ok(())
}

fn one_start(alloc: Global, row: &Row, start: u64) -> Result<BTreeMap<Row, u64>, AllocError>
    ensures found { IfOk result (λ map. (u : List Value) →
        kept_for map.entries u ≡ last_for ((row.now, start) ∷ []) u None) }
    ensures ascend { IfOk result (λ map. RowsAscend map.entries) }
    ensures differ { IfOk result (λ _. RowsDiffer ((row.now, start) ∷ [])) }
{
    let mut map = BTreeMap::new(alloc);
    map.insert(row.copy(alloc)?, start)?;
    Ok(map)
}

fn hashed_starts(alloc: Global, starts: BTreeMap<Row, u64>) -> Result<RunStarts, AllocError>
    ensures found { IfOk result (λ map. (u : List Value) →
        kept_for map u ≡ last_for starts.entries u None) }
    ensures ascend { IfOk result (λ _. RowsAscend starts.entries) }
{
    let mut map = RunStarts::new(alloc);
    for (row, start) in starts {
        map.insert(row, start)?;
    }
    Ok(map)
}

impl RunStarts {
    /// No starts.
    pub fn new(alloc: Global) -> Self
        ensures { result ≡ [] }
    {
        RunStarts {
            lone: None,
            many: HashMap::new(alloc),
        }
    }

    fn is_empty(&self) -> bool
        ensures { result ≡ true → self.now ≡ [] }
    {
        self.lone.is_none() && self.many.is_empty()
    }

    /// The start of a row, if there is one.
    pub(crate) fn get(&self, row: &Row) -> Option<u64>
        ensures { result ≡ kept_for self.now row.now }
    {
        let Some((lone, start)) = &self.lone else {
            return self.many.get(row).copied();
        };
        if row == lone { Some(*start) } else { None }
    }

    /// The start of a row, in place of the one that it had.
    pub(crate) fn insert(&mut self, row: Row, start: u64) -> Result<(), AllocError>
        ensures { OnOk result ((w : List Value) → kept_for self.new w
            ≡ cond (is_at (row_cmp row) w) (Some start) (kept_for self.old w)) }
    {
        if self.is_empty() {
            self.lone = Some((row, start));
            return Ok(());
        }
        spread(&mut self.lone, &mut self.many)?;
        self.many.insert(row, start)?;
        Ok(())
    }

    /// Whether this row's start is the only one.
    pub(crate) fn has_only(&self, row: &Row) -> bool
        ensures { result ≡ true → (w : List Value) (p : ℕ) → kept_for self.now w
            ≡ cond (is_at (row_cmp row.now) w) (Some (unwrap_or (kept_for self.now w) p)) None }
    {
        match &self.lone {
            Some((lone, _)) => row == lone,
            None => false,
        }
    }

    /// The start of one row, in place of all.
    pub(crate) fn put_alone(&mut self, alloc: Global, row: Row, start: u64)
        ensures { self.new ≡ (row, start) ∷ [] }
    {
        if self.many.capacity() > 0 {
            self.many = HashMap::new(alloc);
        }
        self.lone = Some((row, start));
    }

    /// Drops the start of a row.
    pub(crate) fn remove(&mut self, row: &Row)
        ensures { (w : List Value) → kept_for self.new w
            ≡ cond (is_at (row_cmp row.now) w) None (kept_for self.old w) }
    {
        let Some((lone, _)) = &self.lone else {
            self.many.remove(row);
            return;
        };
        if row == lone {
            self.lone = None;
            self.many.clear();
        }
    }

    /// These starts, each found by its row.
    pub fn from_ordered(alloc: Global, starts: BTreeMap<Row, u64>) -> Result<Self, AllocError>
        ensures found { IfOk result (λ map. (u : List Value) →
            kept_for map u ≡ last_for starts.entries u None) }
        ensures ascend { IfOk result (λ _. RowsAscend starts.entries) }
        ensures same { IfOk result (λ map. in_order map ≡ starts.entries) }
    {
        let map = hashed_starts(alloc, starts)?;
        Ok(map)
    }

    /// Copies of the starts, by ascending rows.
    pub fn in_order(&self, alloc: Global) -> Result<BTreeMap<Row, u64>, AllocError>
        ensures found { IfOk result (λ map. (u : List Value) →
            kept_for map.entries u ≡ last_for self.now u None) }
        ensures ascend { IfOk result (λ map. RowsAscend map.entries) }
        ensures differ { IfOk result (λ _. RowsDiffer self.now) }
        ensures same { IfOk result (λ map. map.entries ≡ in_order self.now) }
    {
        let map = self.copies(alloc)?;
        Ok(map)
    }

    fn copies(&self, alloc: Global) -> Result<BTreeMap<Row, u64>, AllocError>
        ensures found { IfOk result (λ map. (u : List Value) →
            kept_for map.entries u ≡ last_for self.now u None) }
        ensures ascend { IfOk result (λ map. RowsAscend map.entries) }
        ensures differ { IfOk result (λ _. RowsDiffer self.now) }
    {
        match &self.lone {
            Some((row, start)) => one_start(alloc, row, *start),
            None => ordered_starts(alloc, &self.many),
        }
    }
}
