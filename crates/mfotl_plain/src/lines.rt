//! The text that a monitor of a formula writes on a log.
ghost use Rattle.std.specs.Prelude.{◌≡◌, ◌++◌, ◌<◌, length, OnOk, IfOk};
ghost use Rattle.mfotl_model.specs.Formulas.{form};
ghost use Rattle.mfotl_model.specs.Log.{times};
ghost use Rattle.mfotl_model.specs.VerdictText.{line_of, text, verdict_at};

use crate::operators::time_at;
use crate::settling::is_settled;
use crate::violating_rows::violations;
use mfotl_model::{Formula, TimePoint, push_verdict};
use std::alloc::{AllocError, Global};

/// The lines of the verdicts on a log, up to the first position that isn't settled.
pub fn log_text(alloc: Global, formula: &Formula, log: &[TimePoint]) -> Result<Vec<u8>, AllocError>
    ensures { IfOk result (λ bytes. bytes.items ≡ text (record { points = log.now }) (form formula.now)) }
{
    let times = timestamps(alloc, log)?;
    let mut out = Vec::new(alloc);
    for at in 0..log.len() {
        if !is_settled(formula, times.as_slice(), at) {
            return Ok(out);
        }
        push_line(alloc, &mut out, formula, log, at)?;
    }
    Ok(out)
}

fn timestamps(alloc: Global, log: &[TimePoint]) -> Result<Vec<u64>, AllocError>
    ensures { IfOk result (λ stamps. stamps.items ≡ times log.now) }
{
    let mut stamps = Vec::new(alloc);
    for point in log {
        stamps.push(point.ts)?;
    }
    Ok(stamps)
}

fn push_line(
    alloc: Global,
    out: &mut Vec<u8>,
    formula: &Formula,
    log: &[TimePoint],
    at: usize,
) -> Result<(), AllocError>
    requires { at < length log.now }
    ensures { OnOk result (out.new.items ≡ out.old.items
        ++ line_of (verdict_at log.now (form formula.now) at)) }
{
    let rows = violations(alloc, formula, log, at)?;
    push_verdict(out, at as u64, time_at(log, at), rows.as_slice())
}
