//! What a token makes of a stage.
ghost use Rattle.std.specs.Prelude.{List};
ghost use Rattle.mfotl_lex.specs.Lexemes.{lexeme};
ghost use Rattle.mfotl_sig.specs.Preds.{PredOf};
ghost use Rattle.mfotl_parse.specs.Reading.{transition_at};
ghost use Rattle.mfotl_parse.specs.Transitions.{given};
ghost use Rattle.mfotl_parse.specs.Views.{binding_stage_of, call_stage_of, call_view, context_of, interval_stage_of};
ghost use Rattle.mfotl_parse.specs.Views.{stage_of, GoesOn};

use crate::call::Call;
use crate::class::{Class, Quantifier};
use crate::fault::PolicyFault;
use crate::state::{BindingStage, CallStage, Context, IntervalStage, Stage};
use mfotl_lex::Token;
use mfotl_sig::Signature;
use std::alloc::Global;

/// What may come behind the next token.
#[tactic(auto, unfolding(crate::specs::Views::stage_of))]
pub fn advance<'a>(
    alloc: Global,
    context: &mut Context,
    signature: &'a Signature,
    now: Stage<'a>,
    token: &Token<'a>,
    class: Class,
) -> Result<Stage<'a>, PolicyFault>
    ensures { GoesOn result context.new (given token.now.at (transition_at (stage_of now.entry) signature.now
        (context_of context.old) (lexeme token.now) class)) }
{
    match now {
        Stage::ExpectOperand => context.operand(alloc, token, class),
        Stage::AfterTemporal => context.fresh(alloc, token, class),
        Stage::AfterOperand(formula) => context.have(alloc, formula, token, class),
        Stage::AfterWord(at, name) => context.word(alloc, signature, at, name, token, class),
        Stage::AfterBlank(at) => context.blank(alloc, signature, at, token, class),
        Stage::AfterMark(mark) => context.marked(alloc, mark, token, class),
        Stage::ExpectSign(left) => context.compared(left, token, class),
        Stage::AfterSign(left, at, sign) => context.against(alloc, left, at, sign, token, class),
        Stage::AfterSignMark(left, at, sign, mark) => {
            context.against_marked(alloc, left, at, sign, mark, token, class)
        }
        Stage::InCall(call, now) => advance_call(alloc, context, call, now, token, class),
        Stage::InBinding(quantifier, now) => {
            advance_binding(alloc, context, quantifier, now, token, class)
        }
        Stage::InInterval(now) => advance_interval(alloc, context, now, token, class),
    }
}

/// What may come behind the next token within an atom's parentheses.
fn advance_call<'a>(
    alloc: Global,
    context: &mut Context,
    call: Call<'a>,
    now: CallStage,
    token: &Token<'a>,
    class: Class,
) -> Result<Stage<'a>, PolicyFault>
    ensures { (sig : List PredOf) → GoesOn result context.new (given token.now.at (transition_at
        (call_stage_of (call_view call.entry) now) sig (context_of context.old) (lexeme token.now) class)) }
{
    match now {
        CallStage::FirstArgument => context.first_argument(alloc, call, token, class),
        CallStage::NextArgument => context.argument(alloc, call, token, class),
        CallStage::AfterArgument => context.after_argument(alloc, call, token, class),
        CallStage::AfterArgumentMark(mark) => {
            context.marked_argument(alloc, call, mark, token, class)
        }
    }
}

/// What may come behind the next token among a quantifier's variables.
fn advance_binding<'a>(
    alloc: Global,
    context: &mut Context,
    quantifier: Quantifier,
    now: BindingStage,
    token: &Token<'a>,
    class: Class,
) -> Result<Stage<'a>, PolicyFault>
    ensures { (sig : List PredOf) → GoesOn result context.new (given token.now.at (transition_at
        (binding_stage_of quantifier now) sig (context_of context.old) (lexeme token.now) class)) }
{
    match now {
        BindingStage::ExpectVariable => context.binder(alloc, quantifier, token, class),
        BindingStage::AfterVariableMark(_) => {
            context.binder_marked(alloc, quantifier, token, class)
        }
        BindingStage::AfterVariable => context.bound(quantifier, token, class),
    }
}

/// What may come behind the next token of an interval, or of what may be one.
fn advance_interval<'a>(
    alloc: Global,
    context: &mut Context,
    now: IntervalStage,
    token: &Token<'a>,
    class: Class,
) -> Result<Stage<'a>, PolicyFault>
    ensures { (sig : List PredOf) → GoesOn result context.new
        (given token.now.at (transition_at (interval_stage_of now) sig (context_of context.old)
        (lexeme token.now) class)) }
{
    match now {
        IntervalStage::AfterParen(start) => context.maybe(alloc, start, token, class),
        IntervalStage::AfterParenNumber(start, at, number) => context.maybe_number(
            start, at, number, token, class,
        ),
        IntervalStage::ExpectLow(start) => context.low(start, token, class),
        IntervalStage::AfterLowNumber(start, at, number) => context.low_number(
            start, at, number, token, class,
        ),
        IntervalStage::AfterLow(start, low) => context.low_done(start, low, token, class),
        IntervalStage::ExpectHigh(start, low) => context.high(start, low, token, class),
        IntervalStage::AfterHighNumber(start, low, at, number) => {
            context.high_number(start, low, at, number, token, class)
        }
        IntervalStage::AfterHigh(start, low, high) => context.bracket(
            start, low, high, token, class,
        ),
        IntervalStage::AfterStar(_, low) => context.endless(low, token, class),
    }
}
