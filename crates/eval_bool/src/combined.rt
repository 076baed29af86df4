//! One table of those of the children of a conjunction.
ghost use Rattle.std.specs.Prelude.{◌≡◌, ◌&&◌, ◌||◌, ℕ, IfOk, IsTrue};
ghost use Rattle.std.specs.List.{list_all};
ghost use Rattle.mfotl_model.specs.FreeVariables.{among};
ghost use Rattle.mfotl_model.specs.Satisfaction.{Valuation};
ghost use Rattle.mfotl_model.specs.Tables.{all_among, all_apart, has};
ghost use Rattle.eval_bool.specs.Heads.{all_have, all_inside, in_columns, joined_columns, joined_has, none_has};
ghost use Rattle.eval_bool.specs.JoinedSoFar.{all_joined, is_joined};
ghost use Rattle.eval_bool.specs.JoinView.{compared_variables, test_holds};

use crate::conjunct::Test;
use crate::heads::Heads;
use crate::reorder::reordered;
use relations::Table;
use std::alloc::{AllocError, Global};

// the first table is moved, and each further one is joined to those before
fn joined_with(alloc: Global, before: Option<Table>, table: Table) -> Result<Table, AllocError>
    ensures columns { IfOk result (λ joined. (y : ℕ) →
        among y joined.columns ≡ (among y (joined_columns before) || among y table.columns)) }
    ensures has { IfOk result (λ joined. (v : Valuation) →
        has joined v ≡ (joined_has v before && has table v)) }
{
    match before {
        None => Ok(table),
        Some(before) => {
            let joined = before.joined(alloc, &table)?;
            Ok(joined)
        }
    }
}

// What was joined of the tables so far, and the last of them where it waits for the next: two are joined
// at once, since the second may leave few of the rows.
#[derive(Drop)]
struct Joined {
    table: Option<Table>,
    waiting: Option<Table>,
}

// joins the two to what was joined before
fn both_joined(
    alloc: Global,
    before: Option<Table>,
    second: Table,
    third: Table,
) -> Result<Joined, AllocError>
    ensures columns { IfOk result (λ joined. (y : ℕ) → is_joined y joined
        ≡ ((among y (joined_columns before) || among y second.columns) || among y third.columns)) }
    ensures has { IfOk result (λ joined. (v : Valuation) → all_joined v joined
        ≡ ((joined_has v before && has second v) && has third v)) }
{
    match before {
        None => Ok(Joined {
            table: Some(second),
            waiting: Some(third),
        }),
        Some(before) => {
            let table = before.joined_twice(alloc, &second, &third)?;
            Ok(Joined {
                table: Some(table),
                waiting: None,
            })
        }
    }
}

fn one_more(alloc: Global, joined: Joined, table: Table) -> Result<Joined, AllocError>
    ensures columns { IfOk result (λ more. (y : ℕ) →
        is_joined y more ≡ (is_joined y joined || among y table.columns)) }
    ensures has { IfOk result (λ more. (v : Valuation) →
        all_joined v more ≡ (all_joined v joined && has table v)) }
{
    let Joined {
        table: before,
        waiting,
    } = joined;
    match waiting {
        None => Ok(Joined {
            table: before,
            waiting: Some(table),
        }),
        Some(second) => both_joined(alloc, before, second, table),
    }
}

// joins the table that waits
fn last_joined(alloc: Global, joined: Joined) -> Result<Option<Table>, AllocError>
    ensures columns { IfOk result (λ table. (y : ℕ) →
        among y (joined_columns table) ≡ is_joined y joined) }
    ensures has { IfOk result (λ table. (v : Valuation) →
        joined_has v table ≡ all_joined v joined) }
{
    let Joined {
        table: before,
        waiting,
    } = joined;
    match waiting {
        None => Ok(before),
        Some(table) => Ok(Some(joined_with(alloc, before, table)?)),
    }
}

fn all_joined(alloc: Global, tables: Vec<Table>) -> Result<Option<Table>, AllocError>
    ensures columns { IfOk result (λ joined. (y : ℕ) →
        among y (joined_columns joined) ≡ in_columns y tables.items) }
    ensures has { IfOk result (λ joined. (v : Valuation) →
        joined_has v joined ≡ all_have v tables.items) }
{
    let mut joined = Joined {
        table: None,
        waiting: None,
    };
    for table in tables {
        joined = one_more(alloc, joined, table)?;
    }
    let table = last_joined(alloc, joined)?;
    Ok(table)
}

fn or_unit(alloc: Global, joined: Option<Table>) -> Result<Table, AllocError>
    ensures columns { IfOk result (λ table. table.columns ≡ joined_columns joined) }
    ensures has { IfOk result (λ table. (v : Valuation) → has table v ≡ joined_has v joined) }
{
    match joined {
        Some(table) => Ok(table),
        None => Table::unit(alloc),
    }
}

fn without_any(alloc: Global, table: Table, others: Vec<Table>) -> Result<Table, AllocError>
    requires inside { IsTrue (all_inside table.columns others.items) }
    ensures columns { IfOk result (λ rest. rest.columns ≡ table.columns) }
    ensures has { IfOk result (λ rest. (v : Valuation) →
        has rest v ≡ (has table v && none_has v others.items)) }
{
    let mut rest = table;
    for other in others {
        rest = rest.antijoined(alloc, &other)?;
    }
    Ok(rest)
}

fn tested(table: Table, tests: &[Test]) -> Table
    requires inside { IsTrue (list_all (λ t. all_among (compared_variables t.comparison) table.columns) tests.now) }
    ensures columns { result.columns ≡ table.columns }
    ensures has { (v : Valuation) →
        has result v ≡ (has table v && list_all (test_holds v) tests.now) }
{
    let mut rest = table;
    for test in tests {
        rest = rest.selected(&test.comparison, test.wanted);
    }
    rest
}

/// The rows over these columns whose parts all plain tables have and no negated one, and that pass
/// the tests.
pub(crate) fn combined(
    alloc: Global,
    heads: Heads,
    tests: &[Test],
    columns: &[u32],
) -> Result<Table, AllocError>
    requires apart { IsTrue (all_apart columns.now) }
    requires same { (y : ℕ) → among y columns.now ≡ in_columns y heads.plain.items }
    requires negated { IsTrue (all_inside columns.now heads.negated.items) }
    requires tests { IsTrue (list_all (λ t. all_among (compared_variables t.comparison) columns.now) tests.now) }
    ensures columns { IfOk result (λ table. table.columns ≡ columns.now) }
    ensures has { IfOk result (λ table. (v : Valuation) → has table v
        ≡ ((all_have v heads.plain.items && none_has v heads.negated.items)
        && list_all (test_holds v) tests.now)) }
{
    let joined = all_joined(alloc, heads.plain)?;
    let joined = or_unit(alloc, joined)?;
    let rest = without_any(alloc, joined, heads.negated)?;
    let kept = tested(rest, tests);
    let table = reordered(alloc, kept, columns)?;
    Ok(table)
}
