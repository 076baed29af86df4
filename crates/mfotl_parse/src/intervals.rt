//! The interval behind a temporal operator.
#![tactic(auto, unfolding(crate::specs::Views::stage_of))]

ghost use Rattle.std.specs.Prelude.{◌≡◌, ◌≤◌, ◌^◌, [], IfSome};
ghost use Rattle.mfotl_lex.specs.Lexemes.{lexeme};
ghost use Rattle.mfotl_parse.specs.Intervals.{bound_of, distances, any_distance, timed, bracket, low_move};
ghost use Rattle.mfotl_parse.specs.Intervals.{low_unit, low_number_move, low_done_move, high_move, high_unit};
ghost use Rattle.mfotl_parse.specs.Intervals.{high_number_move, endless_move};
ghost use Rattle.mfotl_parse.specs.Limits.{max_bound};
ghost use Rattle.mfotl_parse.specs.Transitions.{given, goes};
ghost use Rattle.mfotl_parse.specs.Views.{context_of, GoesOn};

use crate::class::{Class, unit_of};
use crate::fault::PolicyFault;
use crate::limits::MAX_BOUND;
use crate::stack;
use crate::state::{Context, IntervalStage, Stage};
use mfotl_lex::Token;
use mfotl_model::Interval;

/// The distances from `low` on, up to `high` where that isn't below `low`.
fn distances(low: u64, high: Option<u64>) -> Interval
    ensures { result ≡ distances low high }
{
    match high {
        None => Interval { lo: low, hi: None },
        Some(high) => Interval {
            lo: low,
            hi: Some(high.max(low)),
        },
    }
}

/// Any distance.
pub fn any_distance() -> Interval
    ensures { result ≡ any_distance }
{
    distances(0, None)
}

impl Context {
    fn time<'a>(&mut self, low: u64, high: Option<u64>) -> Result<Stage<'a>, PolicyFault>
        ensures { GoesOn result self.new
            (given 0 (goes [] (timed (context_of self.old) low high))) }
    {
        stack::set_interval(&mut self.frames, distances(low, high))?;
        Ok(Stage::ExpectOperand)
    }

    /// The bracket behind an upper bound: `]` includes it and `)` doesn't.
    pub fn bracket<'a>(
        &mut self,
        start: u64,
        low: u64,
        high: u64,
        token: &Token<'a>,
        class: Class,
    ) -> Result<Stage<'a>, PolicyFault>
        ensures { GoesOn result self.new
            (given token.now.at (bracket (context_of self.old) start low high class)) }
    {
        match class {
            Class::CloseBracket => {
                if high < low {
                    return Err(PolicyFault::EmptyInterval(start));
                }
                self.time(low, Some(high))
            }
            Class::CloseParen => {
                if high <= low {
                    return Err(PolicyFault::EmptyInterval(start));
                }
                self.time(low, Some(high - 1))
            }
            _ => Err(PolicyFault::Syntax(token.at as u64)),
        }
    }

    pub fn low<'a>(
        &mut self,
        start: u64,
        token: &Token<'a>,
        class: Class,
    ) -> Result<Stage<'a>, PolicyFault>
        ensures { GoesOn result self.new
            (given token.now.at (low_move (context_of self.old) start (lexeme token.now) class)) }
    {
        let at = token.at as u64;
        match class {
            Class::Integer(number) => match u64::try_from(number) {
                Ok(number) => {
                    if number > MAX_BOUND {
                        return Err(PolicyFault::BoundRange(at));
                    }
                    Ok(Stage::InInterval(IntervalStage::AfterLowNumber(start, at, number)))
                }
                Err(_) => Err(PolicyFault::Syntax(at)),
            },
            _ => Err(PolicyFault::Syntax(at)),
        }
    }

    pub fn low_number<'a>(
        &mut self,
        start: u64,
        number_at: u64,
        number: u64,
        token: &Token<'a>,
        class: Class,
    ) -> Result<Stage<'a>, PolicyFault>
        ensures { GoesOn result self.new
            (given token.now.at (low_number_move (context_of self.old) start number_at number
            (lexeme token.now) class)) }
    {
        let at = token.at as u64;
        match class {
            Class::Comma => Ok(Stage::InInterval(IntervalStage::ExpectHigh(start, number))),
            Class::Name => match unit_of(token.text) {
                Some(unit) => match bound_of(number, unit) {
                    Some(low) => Ok(Stage::InInterval(IntervalStage::AfterLow(start, low))),
                    None => Err(PolicyFault::BoundRange(number_at)),
                },
                None => Err(PolicyFault::Syntax(at)),
            },
            _ => Err(PolicyFault::Syntax(at)),
        }
    }

    pub fn low_done<'a>(
        &mut self,
        start: u64,
        low: u64,
        token: &Token<'a>,
        class: Class,
    ) -> Result<Stage<'a>, PolicyFault>
        ensures { GoesOn result self.new
            (given token.now.at (low_done_move (context_of self.old) start low class)) }
    {
        match class {
            Class::Comma => Ok(Stage::InInterval(IntervalStage::ExpectHigh(start, low))),
            _ => Err(PolicyFault::Syntax(token.at as u64)),
        }
    }

    pub fn high<'a>(
        &mut self,
        start: u64,
        low: u64,
        token: &Token<'a>,
        class: Class,
    ) -> Result<Stage<'a>, PolicyFault>
        ensures { GoesOn result self.new
            (given token.now.at (high_move (context_of self.old) start low
            (lexeme token.now) class)) }
    {
        let at = token.at as u64;
        match class {
            Class::Integer(number) => match u64::try_from(number) {
                Ok(number) => {
                    if number > MAX_BOUND {
                        return Err(PolicyFault::BoundRange(at));
                    }
                    Ok(Stage::InInterval(IntervalStage::AfterHighNumber(start, low, at, number)))
                }
                Err(_) => Err(PolicyFault::Syntax(at)),
            },
            Class::Star => Ok(Stage::InInterval(IntervalStage::AfterStar(start, low))),
            _ => Err(PolicyFault::Syntax(at)),
        }
    }

    pub fn high_number<'a>(
        &mut self,
        start: u64,
        low: u64,
        number_at: u64,
        number: u64,
        token: &Token<'a>,
        class: Class,
    ) -> Result<Stage<'a>, PolicyFault>
        ensures { GoesOn result self.new
            (given token.now.at (high_number_move
            (context_of self.old) start low number_at number (lexeme token.now) class)) }
    {
        match class {
            Class::Name => match unit_of(token.text) {
                Some(unit) => match bound_of(number, unit) {
                    Some(high) => Ok(Stage::InInterval(IntervalStage::AfterHigh(start, low, high))),
                    None => Err(PolicyFault::BoundRange(number_at)),
                },
                None => Err(PolicyFault::Syntax(token.at as u64)),
            },
            class => self.bracket(start, low, number, token, class),
        }
    }

    pub fn endless<'a>(
        &mut self,
        low: u64,
        token: &Token<'a>,
        class: Class,
    ) -> Result<Stage<'a>, PolicyFault>
        ensures { GoesOn result self.new
            (given token.now.at (endless_move (context_of self.old) low class)) }
    {
        match class {
            Class::CloseParen => self.time(low, None),
            _ => Err(PolicyFault::Syntax(token.at as u64)),
        }
    }
}

/// A bound with its unit, unless it is above 2^62.
pub fn bound_of(number: u64, unit: u64) -> Option<u64>
    ensures bound { result ≡ bound_of number unit }
    ensures within { IfSome result (λ bound. bound ≤ max_bound) }
{
    let bound = number.checked_mul(unit)?;
    (bound <= MAX_BOUND).then_some(bound)
}
