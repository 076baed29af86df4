//! Rows of values, and lists of rows.
ghost use Rattle.std.specs.Prelude.{◌≡◌, ◌++◌, ◌∷◌, [], IfOk, length, IsTrue, refl};
ghost use Rattle.std.specs.Cmp.{eq_by_cmp_equiv, partial_equiv_from_equiv, partial_order_from_agreeing_total};
ghost use Rattle.std.specs.Ordering.{as_partial_cmp, eq_by_cmp};
ghost use Rattle.mfotl_model.specs.Ascending.{ascending};
ghost use Rattle.mfotl_model.specs.Hashes.{row_writes, rows_alike};
ghost use Rattle.mfotl_model.specs.HeldValues.{held_values};
ghost use Rattle.mfotl_model.specs.Values.{row_cmp, row_total};

use crate::value::Value;
use std::alloc::{AllocError, Global};
use std::cmp::Ordering;
use std::hash::{Hash, Hasher};
use std::marker::Model;

// Up to two values stand in the row itself, more in memory of their own.
#[derive(Debug, Drop)]
enum Held {
    Zero,
    One([Value; 1]),
    Two([Value; 2]),
    Many(Vec<Value>),
}

fn holding(values: Vec<Value>) -> Held
    ensures { held_values result ≡ values.items }
{
    if values.len() > 2 {
        return Held::Many(values);
    }
    let mut values = values.into_iter();
    match (values.next(), values.next()) {
        (Some(first), Some(second)) => Held::Two([first, second]),
        (Some(first), None) => Held::One([first]),
        _ => Held::Zero,
    }
}

// The values and one more.
fn one_more(alloc: Global, held: Held, value: Value) -> Result<Held, AllocError>
    ensures { IfOk result (λ more. held_values more ≡ held_values held ++ value ∷ []) }
{
    match held {
        Held::Zero => Ok(Held::One([value])),
        Held::One(values) => {
            let [first] = values;
            Ok(Held::Two([first, value]))
        }
        Held::Two(values) => {
            let [first, second] = values;
            Ok(Held::Many(three(alloc, first, second, value)?))
        }
        Held::Many(values) => Ok(Held::Many(longer(values, value)?)),
    }
}

// The values and one more in their own memory.
fn longer(mut values: Vec<Value>, value: Value) -> Result<Vec<Value>, AllocError>
    ensures { IfOk result (λ more. more.items ≡ values.items ++ value ∷ []) }
{
    values.push(value)?;
    Ok(values)
}

// A row's third value takes memory for all.
fn three(alloc: Global, first: Value, second: Value, third: Value) -> Result<Vec<Value>, AllocError>
    ensures { IfOk result (λ values. values.items ≡ first ∷ second ∷ third ∷ []) }
{
    let mut values = Vec::with_capacity(alloc, 4)?;
    values.push(first)?;
    values.push(second)?;
    values.push(third)?;
    Ok(values)
}

/// One value for each column. Rows compare by their first values, then by the next.
#[derive(Debug, Drop)]
pub struct Row {
    held: Held,
}

impl Model for Row {
    ghost use Rattle.std.specs.Prelude.{List};
    ghost use Rattle.mfotl_model.specs.HeldValues.{held_values};
    ghost use Rattle.mfotl_model.specs.declared.value.Value.{Value as OneValue};

    ghost Value = { List OneValue };

    ghost view = { λ r. held_values r.held };
}

impl Row {
    /// The row of no column.
    pub fn empty() -> Self
        ensures { result ≡ [] }
    {
        Row { held: Held::Zero }
    }

    /// The row of two values. It takes no memory.
    pub fn pair(left: Value, right: Value) -> Self
        ensures { result ≡ left ∷ right ∷ [] }
    {
        Row {
            held: Held::Two([left, right]),
        }
    }

    /// The row of these values. A row can't give the vector back: it keeps up to two values in itself.
    pub fn new(values: Vec<Value>) -> Self
        ensures { result ≡ values.items }
    {
        Row {
            held: holding(values),
        }
    }

    /// The row with one value more behind. Up to the second value it takes no memory.
    pub fn push(self, alloc: Global, value: Value) -> Result<Self, AllocError>
        ensures { IfOk result (λ row. row ≡ self ++ value ∷ []) }
    {
        let Row { held } = self;
        Ok(Row {
            held: one_more(alloc, held, value)?,
        })
    }

    pub fn values(&self) -> &[Value]
        ensures { result.now ≡ self.now }
    {
        match &self.held {
            Held::Zero => &[],
            Held::One(values) => values,
            Held::Two(values) => values,
            Held::Many(values) => values.as_slice(),
        }
    }

    pub fn copy(&self, alloc: Global) -> Result<Self, AllocError>
        ensures { IfOk result (λ row. row ≡ self.now) }
    {
        match &self.held {
            Held::Zero => Ok(Row::empty()),
            Held::One([first]) => copied_one(alloc, first),
            Held::Two([first, second]) => copied_two(alloc, first, second),
            Held::Many(values) => copied_many(alloc, values.as_slice()),
        }
    }
}

fn copied_one(alloc: Global, first: &Value) -> Result<Row, AllocError>
    ensures { IfOk result (λ row. row ≡ first.now ∷ []) }
{
    let first = first.copy(alloc)?;
    Ok(Row {
        held: Held::One([first]),
    })
}

fn copied_two(alloc: Global, first: &Value, second: &Value) -> Result<Row, AllocError>
    ensures { IfOk result (λ row. row ≡ first.now ∷ second.now ∷ []) }
{
    let first = first.copy(alloc)?;
    let second = second.copy(alloc)?;
    Ok(Row {
        held: Held::Two([first, second]),
    })
}

fn copied_many(alloc: Global, values: &[Value]) -> Result<Row, AllocError>
    ensures { IfOk result (λ row. row ≡ values.now) }
{
    let values = copied(alloc, values)?;
    Ok(Row {
        held: Held::Many(values),
    })
}

fn copied(alloc: Global, values: &[Value]) -> Result<Vec<Value>, AllocError>
    ensures { IfOk result (λ copies. copies.items ≡ values.now) }
{
    let mut copies = Vec::with_capacity(alloc, values.len())?;
    for value in values {
        copies.push(value.copy(alloc)?)?;
    }
    Ok(copies)
}

// The order of any two rows, value by value.
#[inline(never)]
fn by_values(left: &Row, right: &Row) -> Ordering
    ensures { result ≡ row_cmp left.now right.now }
{
    left.values().cmp(right.values())
}

// The order of two rows of two values.
#[inline(never)]
fn by_pair(left: &[Value; 2], right: &[Value; 2]) -> Ordering
    ensures { result ≡ row_cmp left.now right.now }
{
    let ([left, last], [right, end]) = (left, right);
    match left.cmp(right) {
        Ordering::Equal => last.cmp(end),
        unequal => unequal,
    }
}

// The order of any two rows. Most have up to two values: then no list is walked.
fn by_size(left: &Row, right: &Row) -> Ordering
    ensures { result ≡ row_cmp left.now right.now }
{
    match (&left.held, &right.held) {
        (Held::Zero, Held::Zero) => Ordering::Equal,
        (Held::One([left]), Held::One([right])) => left.cmp(right),
        (Held::Two(left), Held::Two(right)) => by_pair(left, right),
        _ => by_values(left, right),
    }
}

impl PartialEq for Row {
    ghost eq = { eq_by_cmp row_cmp };

    ghost laws = { partial_equiv_from_equiv (eq_by_cmp_equiv row_total) };

    fn eq(&self, other: &Row) -> bool {
        match (&self.held, &other.held) {
            (Held::Zero, Held::Zero) => true,
            (Held::One([left]), Held::One([right])) => left == right,
            (Held::Two([left, last]), Held::Two([right, end])) => left == right && last == end,
            _ => by_values(self, other).is_eq(),
        }
    }
}

impl Eq for Row {
    ghost laws = { eq_by_cmp_equiv row_total };
}

impl PartialOrd for Row {
    ghost partial_cmp = { as_partial_cmp row_cmp };

    ghost laws = { partial_order_from_agreeing_total row_cmp row_total (λ x y. refl) (λ x y. refl) };

    fn partial_cmp(&self, other: &Row) -> Option<Ordering> {
        Some(self.cmp(other))
    }
}

impl Ord for Row {
    ghost cmp = { row_cmp };

    ghost total = { row_total };

    ghost matches_partial_cmp = { λ x y. refl };

    ghost matches_eq = { λ x y. refl };

    // Rows are compared often, and most begin with unequal integers: then nothing is called.
    fn cmp(&self, other: &Row) -> Ordering {
        match (&self.held, &other.held) {
            (Held::One([Value::Int(left)]), Held::One([Value::Int(right)])) => {
                return left.cmp(right);
            }
            (Held::Two([Value::Int(left), _]), Held::Two([Value::Int(right), _])) => {
                if left != right {
                    return left.cmp(right);
                }
            }
            _ => {}
        }
        by_size(self, other)
    }
}

impl Hash for Row {
    ghost hash_input = { row_writes };

    ghost respects_eq = { rows_alike };

    fn hash<H: Hasher>(&self, state: &mut H) {
        match &self.held {
            Held::One([Value::Int(number)]) => number.hash(state),
            _ => Value::hash_slice(self.values(), state),
        }
    }
}

/// A list of rows.
#[derive(Debug, Drop)]
pub struct RowList {
    rows: Vec<Row>,
}

impl Model for RowList {
    ghost use Rattle.std.specs.Prelude.{List};
    ghost use Rattle.mfotl_model.specs.declared.value.Value.{Value as OneValue};

    ghost Value = { List (List OneValue) };

    ghost view = { λ r. r.rows.items };
}

// Whether each row lies below the next.
fn ascends(rows: &[Row]) -> bool
    ensures { IsTrue result → rows.now ≡ ascending row_cmp rows.now }
{
    rows.is_sorted_by(|left, right| left.cmp(right).is_lt())
}

impl RowList {
    pub fn new(rows: Vec<Row>) -> Self
        ensures { result ≡ rows.items }
    {
        RowList { rows }
    }

    /// The rows in ascending order, equal ones once.
    pub fn in_order(mut rows: Vec<Row>) -> Self
        ensures { result ≡ ascending row_cmp rows.items }
    {
        if ascends(rows.as_slice()) {
            return RowList { rows };
        }
        rows.sort_unstable();
        rows.dedup();
        RowList { rows }
    }

    pub fn rows(&self) -> &[Row]
        ensures { result.now ≡ self.now }
    {
        self.rows.as_slice()
    }

    pub fn into_vec(self) -> Vec<Row>
        ensures { result.items ≡ self }
    {
        self.rows
    }
}
