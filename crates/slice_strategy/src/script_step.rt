//! What the next token makes of a change script, by the place of the last one.
ghost use Rattle.std.specs.Prelude.{◌≡◌};
ghost use Rattle.mfotl_lex.specs.Lexemes.{lexeme};
ghost use Rattle.slice_strategy.specs.ChangeAnswers.{Gives};
ghost use Rattle.slice_strategy.specs.ChangeGrammar.{is_before};
ghost use Rattle.slice_strategy.specs.ChangeReading.{decided, falls, within_change, change_opened, named_before};
ghost use Rattle.slice_strategy.specs.ChangeReading.{starts, with_current};

use crate::change::{Change, ChangeFault};
use crate::fault::StrategyFault;
use crate::limits::MAX_CHANGES;
use crate::reading::Reader;
use crate::script::{Current, Script};
use mfotl_lex::{Kind, Token};
use mfotl_model::Var;
use std::alloc::Global;

/// Whether a token is the Word `before`.
fn is_before(token: &Token) -> bool
    ensures { result ≡ is_before token.now.kind token.now.text.now }
{
    match token.kind {
        Kind::Word => token.text == b"before".as_slice(),
        _ => false,
    }
}

/// In front of the first change.
pub(crate) fn start<'a>(done: Vec<Change>, token: &Token<'a>) -> Result<Script<'a>, ChangeFault>
    ensures { Gives (λ s. s) result (starts done.items (lexeme token.now)) }
{
    if !is_before(token) {
        return Err(ChangeFault::Strategy(StrategyFault::Syntax(token.at as u64)));
    }
    Ok(Script {
        done,
        current: None,
        before: Some(*token),
    })
}

/// In the strategy of a change.
pub(crate) fn go_on<'a>(
    alloc: Global,
    vars: &[Var],
    done: Vec<Change>,
    current: Current,
    token: &Token<'a>,
) -> Result<Script<'a>, ChangeFault>
    ensures { Gives (λ s. s) result
        (within_change vars.now done.items current.number current.reader (lexeme token.now)) }
{
    let Current { number, reader } = current;
    if is_before(token) && reader.may_begin() {
        let reader = reader.ended()?;
        return Ok(Script {
            done,
            current: Some(Current { number, reader }),
            before: Some(*token),
        });
    }
    let reader = reader.step(alloc, vars, token)?;
    Ok(Script {
        done,
        current: Some(Current { number, reader }),
        before: None,
    })
}

/// Behind a Word `before` that is an entry's name, as the `=` shows.
fn rename<'a>(
    alloc: Global,
    vars: &[Var],
    done: Vec<Change>,
    current: Option<Current>,
    word: &Token<'a>,
    token: &Token<'a>,
) -> Result<Script<'a>, ChangeFault>
    ensures { Gives (λ s. s) result
        (named_before vars.now done.items current (lexeme word.now) (lexeme token.now)) }
{
    let Some(Current { number, reader }) = current else {
        return Err(ChangeFault::Strategy(StrategyFault::Syntax(token.at as u64)));
    };
    let reader = reader.step(alloc, vars, word)?.step(alloc, vars, token)?;
    Ok(Script {
        done,
        current: Some(Current { number, reader }),
        before: None,
    })
}

/// The whole changes with the one that was open.
fn with_current(mut done: Vec<Change>, current: Option<Current>) -> Result<Vec<Change>, ChangeFault>
    ensures { Gives (λ changes. changes.items) result (Ok (with_current done.items current)) }
{
    if let Some(Current { number, reader }) = current {
        done.push(Change {
            before: number,
            strategy: reader.into_strategy(),
        })?;
    }
    Ok(done)
}

/// Whether a number is below that of the change before.
fn falls(current: &Option<Current>, number: u64) -> bool
    ensures { result ≡ falls current.now number }
{
    match current {
        Some(current) => number < current.number,
        None => false,
    }
}

/// The number of a new change, whose `before` stands at the offset `word`.
fn open_change<'a>(
    alloc: Global,
    vars: &[Var],
    done: Vec<Change>,
    current: Option<Current>,
    word: u64,
    at: u64,
    number: u64,
) -> Result<Script<'a>, ChangeFault>
    ensures { Gives (λ s. s) result (change_opened vars.now done.items current word at number) }
{
    if falls(&current, number) {
        return Err(ChangeFault::FallingChange(at));
    }
    let done = with_current(done, current)?;
    if done.len() >= MAX_CHANGES {
        return Err(ChangeFault::TooManyChanges(word));
    }
    let reader = Reader::new(alloc, vars)?;
    Ok(Script {
        done,
        current: Some(Current { number, reader }),
        before: None,
    })
}

/// Behind a Word `before`.
pub(crate) fn decide<'a>(
    alloc: Global,
    vars: &[Var],
    done: Vec<Change>,
    current: Option<Current>,
    word: &Token<'a>,
    token: &Token<'a>,
) -> Result<Script<'a>, ChangeFault>
    ensures { Gives (λ s. s) result
        (decided vars.now done.items current (lexeme word.now) (lexeme token.now) token.now.kind) }
{
    match token.kind {
        Kind::Integer => {
            let number = token.integer();
            if number < 0 {
                return Err(ChangeFault::Strategy(StrategyFault::Syntax(token.at as u64)));
            }
            open_change(
                alloc,
                vars,
                done,
                current,
                word.at as u64,
                token.at as u64,
                number as u64,
            )
        }
        Kind::Equal => rename(alloc, vars, done, current, word, token),
        _ => Err(ChangeFault::Strategy(StrategyFault::Syntax(token.at as u64))),
    }
}
