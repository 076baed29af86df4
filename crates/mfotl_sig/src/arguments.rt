//! A predicate's arguments, token by token.

ghost use Rattle.std.specs.Prelude.{◌≡◌, []};
ghost use Rattle.mfotl_lex.specs.Lexemes.{lexeme};
ghost use Rattle.mfotl_sig.specs.Answers.{Gives, arguments_of, progress_of};
ghost use Rattle.mfotl_sig.specs.Reading.{with_argument_sort, word_stage, arguments_step};
ghost use Rattle.mfotl_sig.specs.Reading.{after_name, after_open, after_word, after_label, after_sort, after_comma};
ghost use Rattle.mfotl_sig.specs.Rules.{sort_of};

use crate::fault::SigFault;
use crate::limits::MAX_ARGUMENTS;
use mfotl_lex::{Kind, Token};
use mfotl_model::Sort;
use std::alloc::Global;

/// The place of the last token in a predicate.
#[derive(Clone, Copy)]
pub enum Stage {
    AfterName,
    AfterOpen,
    /// Behind a Word that is a sort, unless a `:` makes it a label.
    AfterWord(Option<Sort>, u64),
    AfterLabel,
    AfterSort,
    AfterComma,
}

/// What was read of a predicate behind its name.
#[derive(Drop)]
pub struct Arguments {
    /// The sorts of whole arguments.
    pub sorts: Vec<Sort>,
    pub stage: Stage,
}

/// What a token makes of them.
#[derive(Drop)]
pub enum Progress {
    Open(Arguments),
    /// A `)` has ended them: these are the sorts of all.
    Closed(Vec<Sort>),
}

/// The sort that a Word names.
fn sort_named(word: &[u8]) -> Option<Sort>
    ensures { result ≡ sort_of word.now }
{
    if word == b"int".as_slice() {
        Some(Sort::Int)
    } else if word == b"string".as_slice() {
        Some(Sort::Text)
    } else {
        None
    }
}

fn word_stage(token: &Token) -> Stage
    ensures { result ≡ word_stage (lexeme token.now) }
{
    Stage::AfterWord(sort_named(token.text), token.at as u64)
}

/// The sorts with that of one more argument, whose Word stands at `at`.
fn with_sort(mut sorts: Vec<Sort>, sort: Option<Sort>, at: u64) -> Result<Vec<Sort>, SigFault>
    ensures { Gives (λ more. more.items) result (with_argument_sort sorts.items sort at) }
{
    match sort {
        Some(sort) => {
            sorts.push(sort)?;
            Ok(sorts)
        }
        None => Err(SigFault::UnknownSort(at)),
    }
}

impl Arguments {
    pub fn new(alloc: Global) -> Arguments
        ensures { arguments_of result ≡ record { sorts = []; stage = Stage.AfterName } }
    {
        Arguments {
            sorts: Vec::new(alloc),
            stage: Stage::AfterName,
        }
    }

    /// Takes the next token.
    pub fn step(self, token: &Token) -> Result<Progress, SigFault>
        ensures { Gives progress_of result (arguments_step (arguments_of self) (lexeme token.now)) }
    {
        match self.stage {
            Stage::AfterName => self.after_name(token),
            Stage::AfterOpen => self.after_open(token),
            Stage::AfterWord(sort, at) => self.after_word(sort, at, token),
            Stage::AfterLabel => self.after_label(token),
            Stage::AfterSort => self.after_sort(token),
            Stage::AfterComma => self.after_comma(token),
        }
    }

    fn after_name(self, token: &Token) -> Result<Progress, SigFault>
        ensures { Gives progress_of result (after_name self.sorts.items (lexeme token.now) token.now.kind) }
    {
        match token.kind {
            Kind::OpenParen => Ok(Progress::Open(self.at(Stage::AfterOpen))),
            _ => Err(SigFault::Syntax(token.at as u64)),
        }
    }

    fn after_open(self, token: &Token) -> Result<Progress, SigFault>
        ensures { Gives progress_of result (after_open self.sorts.items (lexeme token.now) token.now.kind) }
    {
        match token.kind {
            Kind::Word => Ok(Progress::Open(self.at(word_stage(token)))),
            Kind::CloseParen => Ok(Progress::Closed(self.sorts)),
            _ => Err(SigFault::Syntax(token.at as u64)),
        }
    }

    fn after_word(self, sort: Option<Sort>, at: u64, token: &Token) -> Result<Progress, SigFault>
        ensures { Gives progress_of result
            (after_word self.sorts.items sort at (lexeme token.now) token.now.kind) }
    {
        match token.kind {
            Kind::Colon => Ok(Progress::Open(self.at(Stage::AfterLabel))),
            Kind::Comma => Ok(Progress::Open(Arguments {
                sorts: with_sort(self.sorts, sort, at)?,
                stage: Stage::AfterComma,
            })),
            Kind::CloseParen => Ok(Progress::Closed(with_sort(self.sorts, sort, at)?)),
            _ => Err(SigFault::Syntax(token.at as u64)),
        }
    }

    fn after_label(self, token: &Token) -> Result<Progress, SigFault>
        ensures { Gives progress_of result (after_label self.sorts.items (lexeme token.now) token.now.kind) }
    {
        match token.kind {
            Kind::Word => Ok(Progress::Open(Arguments {
                sorts: with_sort(self.sorts, sort_named(token.text), token.at as u64)?,
                stage: Stage::AfterSort,
            })),
            _ => Err(SigFault::Syntax(token.at as u64)),
        }
    }

    fn after_sort(self, token: &Token) -> Result<Progress, SigFault>
        ensures { Gives progress_of result (after_sort self.sorts.items (lexeme token.now) token.now.kind) }
    {
        match token.kind {
            Kind::Comma => Ok(Progress::Open(self.at(Stage::AfterComma))),
            Kind::CloseParen => Ok(Progress::Closed(self.sorts)),
            _ => Err(SigFault::Syntax(token.at as u64)),
        }
    }

    fn after_comma(self, token: &Token) -> Result<Progress, SigFault>
        ensures { Gives progress_of result (after_comma self.sorts.items (lexeme token.now) token.now.kind) }
    {
        match token.kind {
            Kind::Word if self.sorts.len() >= MAX_ARGUMENTS => Err(SigFault::Arity(
                token.at as u64,
            )),
            Kind::Word => Ok(Progress::Open(self.at(word_stage(token)))),
            _ => Err(SigFault::Syntax(token.at as u64)),
        }
    }

    /// The same at another place.
    fn at(self, stage: Stage) -> Arguments
        ensures { arguments_of result ≡ record { sorts = self.sorts.items; stage = stage } }
    {
        Arguments {
            sorts: self.sorts,
            stage,
        }
    }
}
