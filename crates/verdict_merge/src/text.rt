//! The line of a verdict.
ghost use Rattle.std.specs.Prelude.{◌≡◌, IfOk};
ghost use Rattle.mfotl_model.specs.VerdictText.{line_of};

use crate::rows::Verdict;
use mfotl_model::push_verdict;
use std::alloc::{AllocError, Global};

/// The line that a monitor writes of a verdict, with its line feed.
pub fn line(alloc: Global, verdict: &Verdict) -> Result<Vec<u8>, AllocError>
    ensures { IfOk result (λ text. text.items
        ≡ line_of (record { point = verdict.now.point; ts = verdict.now.ts; rows = verdict.now.rows })) }
{
    let mut text = Vec::new(alloc);
    push_verdict(&mut text, verdict.point, verdict.ts, verdict.rows.rows())?;
    Ok(text)
}
