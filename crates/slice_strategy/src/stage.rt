//! One entry of a strategy, token by token.
ghost use Rattle.std.specs.Prelude.{◌≡◌, ◌-◌, length, slice_get};
ghost use Rattle.mfotl_lex.specs.Lexemes.{lexeme};
ghost use Rattle.slice_strategy.specs.Answers.{Gives, stage_of};
ghost use Rattle.slice_strategy.specs.Entries.{entries_of, entry_of};
ghost use Rattle.slice_strategy.specs.Reading.{begins, after_name, after_equal, after_method, count_step};
ghost use Rattle.slice_strategy.specs.Reading.{cut_step, goes_on, is_above, stage_step};
ghost use Rattle.slice_strategy.specs.Rules.{holds_text, variable_of};

use crate::entry::Entry;
use crate::fault::StrategyFault;
use mfotl_lex::{Kind, Token};
use mfotl_model::{Sort, Var};
use std::alloc::Global;

/// The variable of an entry, and the offset of its Word.
#[derive(Clone, Copy)]
pub struct Head {
    pub variable: usize,
    pub at: u64,
}

/// What is done with its values.
#[derive(Clone, Copy)]
pub enum Method {
    Hash,
    Cut,
}

/// The place of the last token in an entry, and what was read of that entry.
#[derive(Drop)]
pub enum Stage {
    /// No entry is open.
    Between,
    Named(Head),
    Chosen(Head),
    Divided(Head, Method),
    Counting(Head),
    /// Behind the `:` or a comma, with the cuts before it.
    Cutting(Head, Vec<i64>),
    /// Behind an integer, which ends the entry unless a comma follows.
    Behind(Head, Entry),
}

impl Stage {
    /// Takes the next token.
    pub fn step(
        self,
        alloc: Global,
        vars: &[Var],
        entries: &[Entry],
        token: &Token,
    ) -> Result<Stage, StrategyFault>
        ensures { Gives stage_of result
            (stage_step vars.now (entries_of entries.now) (stage_of self) (lexeme token.now) token.now.kind) }
    {
        match self {
            Stage::Between => begin(vars, entries, token),
            Stage::Named(head) => after_name(head, token),
            Stage::Chosen(head) => after_equal(vars, head, token),
            Stage::Divided(head, method) => after_method(alloc, head, method, token),
            Stage::Counting(head) => count(head, token),
            Stage::Cutting(head, cuts) => cut(head, cuts, token),
            Stage::Behind(head, entry) => go_on(head, entry, token),
        }
    }
}

/// The variable of this name.
fn variable_named(vars: &[Var], name: &[u8]) -> Option<usize>
    ensures { result ≡ variable_of vars.now name.now }
{
    vars.iter().position(|var| name == var.name.as_bytes())
}

fn begin(vars: &[Var], entries: &[Entry], token: &Token) -> Result<Stage, StrategyFault>
    ensures { Gives stage_of result (begins vars.now (entries_of entries.now) (lexeme token.now) token.now.kind) }
{
    if !matches!(token.kind, Kind::Word) {
        return Err(StrategyFault::Syntax(token.at as u64));
    }
    let at = token.at as u64;
    let Some(variable) = variable_named(vars, token.text) else {
        return Err(StrategyFault::UnknownVariable(at));
    };
    match entries.get(variable) {
        Some(Entry::Uncut) => Ok(Stage::Named(Head { variable, at })),
        _ => Err(StrategyFault::RepeatedVariable(at)),
    }
}

fn after_name(head: Head, token: &Token) -> Result<Stage, StrategyFault>
    ensures { Gives stage_of result (after_name head (lexeme token.now) token.now.kind) }
{
    match token.kind {
        Kind::Equal => Ok(Stage::Chosen(head)),
        _ => Err(StrategyFault::Syntax(token.at as u64)),
    }
}

/// Whether the variable is a string.
fn holds_text(vars: &[Var], variable: usize) -> bool
    ensures { result ≡ holds_text (slice_get vars.now variable) }
{
    match vars.get(variable) {
        Some(var) => matches!(var.sort, Sort::Text),
        None => false,
    }
}

fn after_equal(vars: &[Var], head: Head, token: &Token) -> Result<Stage, StrategyFault>
    ensures { Gives stage_of result (after_equal vars.now head (lexeme token.now) token.now.kind) }
{
    match token.kind {
        Kind::Word if token.text == b"hash".as_slice() => Ok(Stage::Divided(head, Method::Hash)),
        Kind::Word if token.text == b"cut".as_slice() => {
            if holds_text(vars, head.variable) {
                return Err(StrategyFault::CutSort(token.at as u64));
            }
            Ok(Stage::Divided(head, Method::Cut))
        }
        _ => Err(StrategyFault::Syntax(token.at as u64)),
    }
}

fn after_method(
    alloc: Global,
    head: Head,
    method: Method,
    token: &Token,
) -> Result<Stage, StrategyFault>
    ensures { Gives stage_of result (after_method head method (lexeme token.now) token.now.kind) }
{
    match (token.kind, method) {
        (Kind::Colon, Method::Hash) => Ok(Stage::Counting(head)),
        (Kind::Colon, Method::Cut) => Ok(Stage::Cutting(head, Vec::new(alloc))),
        _ => Err(StrategyFault::Syntax(token.at as u64)),
    }
}

fn count(head: Head, token: &Token) -> Result<Stage, StrategyFault>
    ensures { Gives stage_of result (count_step head (lexeme token.now) token.now.kind) }
{
    match token.kind {
        Kind::Integer => {
            let number = token.integer();
            if number < 1 {
                return Err(StrategyFault::BadCount(token.at as u64));
            }
            Ok(Stage::Behind(head, Entry::Hash(number as u64)))
        }
        _ => Err(StrategyFault::Syntax(token.at as u64)),
    }
}

/// Whether a number is above the last of the cuts, if there is any.
fn is_above(cuts: &[i64], number: i64) -> bool
    ensures { result ≡ is_above (slice_get cuts.now (length cuts.now - 1)) number }
{
    match cuts.last() {
        Some(last) => *last < number,
        None => true,
    }
}

fn cut(head: Head, mut cuts: Vec<i64>, token: &Token) -> Result<Stage, StrategyFault>
    ensures { Gives stage_of result (cut_step head cuts.items (lexeme token.now) token.now.kind) }
{
    match token.kind {
        Kind::Integer => {
            let number = token.integer();
            if !is_above(cuts.as_slice(), number) {
                return Err(StrategyFault::CutOrder(token.at as u64));
            }
            cuts.push(number)?;
            Ok(Stage::Behind(head, Entry::Cut(cuts)))
        }
        _ => Err(StrategyFault::Syntax(token.at as u64)),
    }
}

fn go_on(head: Head, entry: Entry, token: &Token) -> Result<Stage, StrategyFault>
    ensures { Gives stage_of result (goes_on head (entry_of entry) (lexeme token.now)) }
{
    match entry {
        Entry::Cut(cuts) => Ok(Stage::Cutting(head, cuts)),
        _ => Err(StrategyFault::Syntax(token.at as u64)),
    }
}
