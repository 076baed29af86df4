//! What may come next, and what was read so far.
ghost use Rattle.std.specs.Prelude.{◌≡◌, OnOk, IfOk, nat_le};
ghost use Rattle.mfotl_lex.specs.Contents.{content_of};
ghost use Rattle.mfotl_model.specs.declared.value.Value.TheVariants as values;
ghost use Rattle.mfotl_parse.specs.SymbolTable.{resolved};
ghost use Rattle.mfotl_parse.specs.Comparisons.{with_noted};
ghost use Rattle.mfotl_parse.specs.States.{nothing_read, depth, pushed};
ghost use Rattle.mfotl_parse.specs.Views.{context_of, frame_of};
ghost use Rattle.mfotl_parse.specs.Limits.{max_levels, max_nodes};

use crate::call::Call;
use crate::class::Quantifier;
use crate::frame::Frame;
use crate::limits::{MAX_LEVELS, MAX_NODES};
use crate::stack;
use crate::symbol_table::SymbolTable;
use crate::term::{Side, Variable};
use mfotl_lex::Token;
use mfotl_model::{Formula, Sign, Text, Value};
use std::alloc::{AllocError, Global};

/// What may come next. Each number is an offset unless its variant says otherwise.
#[derive(Drop)]
pub enum Stage<'a> {
    /// An operand.
    ExpectOperand,
    /// Behind a temporal operator: an interval or an operand.
    AfterTemporal,
    /// An operand was read.
    AfterOperand(Box<Formula>),
    /// A Word where an operand begins: an atom's name or a variable.
    AfterWord(u64, &'a [u8]),
    /// `_` there.
    AfterBlank(u64),
    /// `?` there.
    AfterMark(u64),
    /// The left side of a comparison.
    ExpectSign(Side),
    /// Behind the sign, which stands at the offset.
    AfterSign(Side, u64, Sign),
    /// Behind `?` there.
    AfterSignMark(Side, u64, Sign, u64),
    /// Within an atom's parentheses.
    InCall(Call<'a>, CallStage),
    /// Among a quantifier's variables.
    InBinding(Quantifier, BindingStage),
    /// Behind a temporal operator, where an interval begins or may begin.
    InInterval(IntervalStage),
}

/// What may come next within an atom's parentheses.
#[derive(Clone, Copy)]
pub enum CallStage {
    /// Behind the `(`.
    FirstArgument,
    /// Behind a comma between arguments.
    NextArgument,
    /// Behind an argument.
    AfterArgument,
    /// Behind `?`, which stands at the offset, where an argument begins.
    AfterArgumentMark(u64),
}

/// What may come next among a quantifier's variables.
#[derive(Clone, Copy)]
pub enum BindingStage {
    /// A variable.
    ExpectVariable,
    /// Behind its `?`.
    AfterVariableMark(u64),
    /// Behind a variable.
    AfterVariable,
}

/// What may come next in an interval. Each begins with the offset of the bracket; each further number is an offset
/// unless its variant says otherwise.
#[derive(Clone, Copy)]
pub enum IntervalStage {
    /// Behind `(` behind a temporal operator: an interval or an operand.
    AfterParen(u64),
    /// An Integer behind that, with its offset and its value.
    AfterParenNumber(u64, u64, i64),
    /// Behind the `[` of an interval.
    ExpectLow(u64),
    /// The lower bound's Integer, with its offset and value.
    AfterLowNumber(u64, u64, u64),
    /// The unit was read: the least distance.
    AfterLow(u64, u64),
    /// Behind the comma: the least distance.
    ExpectHigh(u64, u64),
    /// The upper bound's Integer: the least distance, the Integer's offset and value.
    AfterHighNumber(u64, u64, u64, u64),
    /// Its unit was read: the least distance and the bound.
    AfterHigh(u64, u64, u64),
    /// Behind `*`: the least distance.
    AfterStar(u64, u64),
}

/// What is open, how many nodes were read, and the names that were met.
#[derive(Drop)]
pub struct Context {
    pub frames: Vec<Frame>,
    pub nodes: u32,
    pub names: SymbolTable,
}

/// A policy up to a token.
#[derive(Drop)]
pub struct Parser<'a> {
    pub context: Context,
    pub now: Stage<'a>,
}

impl Context {
    #[tactic(auto, unfolding(crate::specs::Views::stack_of))]
    pub fn new(alloc: Global) -> Self
        ensures { context_of result ≡ nothing_read.context }
    {
        Context {
            frames: Vec::new(alloc),
            nodes: 0,
            names: SymbolTable::new(alloc),
        }
    }

    /// Whether no level of nesting more may open.
    pub fn is_deep(&self) -> bool
        ensures { result ≡ nat_le max_levels (depth (context_of self.now).stack) }
    {
        stack::depth(&self.frames) >= MAX_LEVELS
    }

    /// Whether there may be no node more.
    pub fn is_full(&self) -> bool
        ensures { result ≡ nat_le max_nodes (context_of self.now).nodes }
    {
        self.nodes >= MAX_NODES
    }

    pub fn push(&mut self, frame: Frame) -> Result<(), AllocError>
        ensures { OnOk result (context_of self.new
            ≡ pushed (frame_of frame) (context_of self.old)) }
    {
        stack::push(&mut self.frames, frame)?;
        Ok(())
    }

    /// The variable that a name at the offset stands for, which may be a new one.
    pub fn meet(&mut self, alloc: Global, name: &[u8], at: u64) -> Result<Variable, AllocError>
        ensures variable { IfOk result (λ variable. variable
            ≡ resolved name.now (context_of self.old).stack (context_of self.old).names) }
        ensures noted { OnOk result (context_of self.new
            ≡ with_noted (context_of self.old) name.now at) }
    {
        Ok(self.names.meet(alloc, name, at, &self.frames)?)
    }
}

/// The value that a Text writes.
pub fn text_value(alloc: Global, token: &Token) -> Result<Value, AllocError>
    ensures { IfOk result (λ value. value
        ≡ values.Text (content_of token.now.kind token.now.text.now)) }
{
    Ok(Value::Text(Text::from_slice(alloc, token.content())?))
}
