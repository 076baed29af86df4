//! The frames that are open, the newest last.
ghost use Rattle.std.specs.Prelude.{◌≡◌, ◌∷◌, [], ◌<◌, IfOk, OnOk, MatchOption, IfSome, vec_len, ℕ, Some};
ghost use Rattle.std.specs.Prelude.{None, if◌then◌else◌};
ghost use Rattle.mfotl_model.specs.Formulas.{Form, form};
ghost use Rattle.mfotl_parse.specs.States.{depth};
ghost use Rattle.mfotl_parse.specs.SymbolTable.{binder_of};
ghost use Rattle.mfotl_parse.specs.Intervals.{with_interval};
ghost use Rattle.mfotl_parse.specs.Operators.{around};
ghost use Rattle.mfotl_parse.specs.Reading.{is_closed};
ghost use Rattle.mfotl_parse.specs.Reduction.{closed, reduce};
ghost use Rattle.mfotl_parse.specs.Views.{frame_of, stack_of};

use crate::frame::Frame;
use mfotl_model::{Formula, Interval};
use std::alloc::{AllocError, Global};

/// How many levels are open.
pub fn depth(frames: &[Frame]) -> usize
    ensures { result ≡ depth (stack_of frames.now) }
{
    let mut below = frames;
    let mut levels = 0;
    while let Some((frame, front)) = below.split_last() {
        if frame.opens_level() {
            levels += 1;
        }
        below = front;
    }
    levels
}

/// The variable of the innermost quantifier that binds the name.
pub fn binder_of(name: &[u8], frames: &[Frame]) -> Option<u32>
    ensures { result ≡ binder_of name.now (stack_of frames.now) }
{
    let mut rest = frames;
    while let Some((frame, front)) = rest.split_last() {
        if let Some(variable) = frame.bound_as(name) {
            return Some(variable);
        }
        rest = front;
    }
    None
}

pub fn push(frames: &mut Vec<Frame>, frame: Frame) -> Result<(), AllocError>
    ensures { OnOk result (stack_of frames.new.items ≡ frame_of frame ∷ stack_of frames.old.items) }
{
    frames.push(frame)?;
    Ok(())
}

/// Takes the newest frame where it holds more tightly than the rule.
fn pop_tighter(frames: &mut Vec<Frame>, rule: u8) -> Option<Frame>
    ensures shorter { IfSome result (λ frame. vec_len frames.new < vec_len frames.old) }
    ensures closes { MatchOption result
        ((f : Form) → reduce rule f (stack_of frames.old.items)
        ≡ record { form = f; stack = stack_of frames.new.items })
        (λ frame. (f : Form) → reduce rule f (stack_of frames.old.items)
        ≡ reduce rule (closed (frame_of frame) f) (stack_of frames.new.items)) }
{
    let Some((last, _)) = frames.split_last() else {
        return None;
    };
    if last.hold() <= rule {
        return None;
    }
    frames.pop()
}

/// Gives the operand to the frames that hold more tightly than the rule.
pub fn reduce(
    alloc: Global,
    frames: &mut Vec<Frame>,
    rule: u8,
    operand: Box<Formula>,
) -> Result<Box<Formula>, AllocError>
    ensures { IfOk result (λ whole. reduce rule (form operand.value) (stack_of frames.old.items)
        ≡ record { form = form whole.value; stack = stack_of frames.new.items }) }
{
    let mut whole = operand;
    while let Some(frame) = pop_tighter(frames, rule) {
        whole = frame.close(alloc, whole)?;
    }
    Ok(whole)
}

/// Gives the innermost operator this interval.
pub fn set_interval(frames: &mut Vec<Frame>, interval: Interval) -> Result<(), AllocError>
    ensures { OnOk result (stack_of frames.new.items
        ≡ with_interval interval (stack_of frames.old.items)) }
{
    let Some(frame) = frames.pop() else {
        return Ok(());
    };
    push(frames, frame.framed(interval))?;
    Ok(())
}

/// Takes the newest frame, and says whether it is a `(`.
pub fn pop_parens(frames: &mut Vec<Frame>) -> bool
    ensures { around (stack_of frames.old.items)
        ≡ (if result then Some (stack_of frames.new.items) else None) }
{
    let Some(frame) = frames.pop() else {
        return false;
    };
    frame.is_parens()
}

/// Whether nothing is open.
pub fn is_closed(frames: &[Frame]) -> bool
    ensures { result ≡ is_closed (stack_of frames.now) }
{
    match frames.split_last() {
        None => true,
        Some(_) => false,
    }
}
