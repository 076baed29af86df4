//! The answer to a case.
ghost use Rattle.std.specs.Prelude.{◌≡◌, ◌++◌, ◌<◌, length, IfOk, OnOk};
ghost use Rattle.std.specs.List.{range_with_len};
ghost use Rattle.mfotl_model.specs.Counts.{settled_count};
ghost use Rattle.mfotl_model.specs.Formulas.{form};
ghost use Rattle.mfotl_model.specs.Log.{times};
ghost use Rattle.mfotl_model.specs.Violations.{viol};
ghost use Rattle.definitions_check.specs.Answers.{answer_text, rows_line, violation_lines};

use crate::cases::Case;
use crate::lines::{head, put_line};
use mfotl_model::{Formula, TimePoint};
use mfotl_plain::{is_settled, violations};
use std::alloc::{AllocError, Global};

/// The lines that answer a case.
pub fn answer(alloc: Global, case: &Case) -> Result<Vec<u8>, AllocError>
    ensures { IfOk result (λ text. text.items
        ≡ answer_text case.now.number case.now.log.items (form case.now.formula)) }
{
    let log = case.log.as_slice();
    let times = times_of(alloc, log)?;
    let mut text = head(
        alloc,
        case.number,
        settled_count(&case.formula, times.as_slice()),
    )?;
    put_violations(alloc, &mut text, &case.formula, log)?;
    Ok(text)
}

fn times_of(alloc: Global, log: &[TimePoint]) -> Result<Vec<u64>, AllocError>
    ensures { IfOk result (λ stamps. stamps.items ≡ times log.now) }
{
    let mut stamps = Vec::new(alloc);
    for point in log {
        stamps.push(point.ts)?;
    }
    Ok(stamps)
}

#[tactic(auto, using(crate::proofs::PositionLemmas::passing_from), unfolding(mfotl_model::specs::Counts::settled_count))]
fn settled_count(formula: &Formula, times: &[u64]) -> usize
    ensures { result ≡ settled_count times.now (form formula.now) }
{
    for at in 0..times.len() {
        if !is_settled(formula, times, at) {
            return at;
        }
    }
    times.len()
}

fn put_violations(
    alloc: Global,
    text: &mut Vec<u8>,
    formula: &Formula,
    log: &[TimePoint],
) -> Result<(), AllocError>
    ensures { OnOk result (text.new.items ≡ text.old.items
        ++ violation_lines log.now (form formula.now) (range_with_len 0 (length log.now))) }
{
    for at in 0..log.len() {
        put_violations_at(alloc, text, formula, log, at)?;
    }
    Ok(())
}

fn put_violations_at(
    alloc: Global,
    text: &mut Vec<u8>,
    formula: &Formula,
    log: &[TimePoint],
    at: usize,
) -> Result<(), AllocError>
    requires { at < length log.now }
    ensures { OnOk result (text.new.items
        ≡ text.old.items ++ rows_line at (viol log.now (form formula.now) at)) }
{
    let rows = violations(alloc, formula, log, at)?;
    put_line(alloc, text, at, rows.as_slice())
}
