//! Cases, read line by line.
ghost use Rattle.std.specs.Prelude.{◌≡◌, ◌∷◌, ◌++◌, [], IfOk, map};
ghost use Rattle.std.specs.Fmt.{decimal};
ghost use Rattle.definitions_check.specs.Values.{spelled_value};

use crate::fault::CaseFault;
use crate::formula::formula;
use crate::line::{Line, line_of};
use crate::values::value;
use crate::words::{Words, natural, small_natural, split_words};
use mfotl_model::{Db, Event, Formula, Row, TimePoint, Value};
use std::alloc::Global;

/// A formula that is asked for over a log.
#[derive(Drop)]
pub struct Case {
    pub number: u64,
    pub log: Vec<TimePoint>,
    pub formula: Formula,
}

// What is read of a case so far.
#[derive(Drop)]
struct Draft {
    number: u64,
    log: Vec<TimePoint>,
    formula: Option<Formula>,
}

/// A case under way, or none.
#[derive(Drop)]
pub struct CaseReader {
    draft: Option<Draft>,
    // Whether the lines of a malformed case are passed over.
    is_passing: bool,
}

impl CaseReader {
    pub fn new() -> Self {
        CaseReader {
            draft: None,
            is_passing: false,
        }
    }

    /// Takes the next line, without its line feed, and gives the case that ends with it, if one does. Of
    /// a malformed case the first fault is told, and what is left of it is passed over, up to its `end`.
    pub fn line(&mut self, alloc: Global, line: &[u8]) -> Result<Option<Case>, CaseFault> {
        let is_end = line == b"end".as_slice();
        if self.is_passing {
            self.is_passing = !is_end;
            return Ok(None);
        }
        let taken = self.take_line(alloc, line);
        if taken.is_err() {
            self.draft = None;
            self.is_passing = !is_end;
        }
        taken
    }

    // Takes a line that is not passed over.
    fn take_line(&mut self, alloc: Global, line: &[u8]) -> Result<Option<Case>, CaseFault> {
        let words = split_words(alloc, line)?;
        self.take_words(alloc, &mut Words::new(words.as_slice()))
    }

    // Takes the words of such a line.
    fn take_words(
        &mut self,
        alloc: Global,
        words: &mut Words<'_>,
    ) -> Result<Option<Case>, CaseFault> {
        let head = line_of(words.next()?)?;
        if let Line::End = head {
            words.end()?;
            return self.ended();
        }
        self.take(alloc, head, words)?;
        words.end()?;
        Ok(None)
    }

    /// Whether no case is under way.
    pub fn finish(&self) -> Result<(), CaseFault> {
        match &self.draft {
            Some(_) => Err(CaseFault::NoEnd),
            None => Ok(()),
        }
    }

    // Takes a line that ends no case.
    fn take(&mut self, alloc: Global, head: Line, words: &mut Words<'_>) -> Result<(), CaseFault> {
        match &mut self.draft {
            Some(draft) => draft.take(alloc, head, words),
            None => {
                self.draft = Some(begun(alloc, head, words)?);
                Ok(())
            }
        }
    }

    fn ended(&mut self) -> Result<Option<Case>, CaseFault> {
        match self.draft.take() {
            Some(draft) => Ok(Some(draft.finished()?)),
            None => Err(CaseFault::Misplaced),
        }
    }
}

// The case that begins with such a line.
fn begun(alloc: Global, head: Line, words: &mut Words<'_>) -> Result<Draft, CaseFault> {
    match head {
        Line::Case => Ok(Draft {
            number: natural(alloc, words.next()?)?,
            log: Vec::new(alloc),
            formula: None,
        }),
        _ => Err(CaseFault::Misplaced),
    }
}

impl Draft {
    fn finished(self) -> Result<Case, CaseFault> {
        let Draft {
            number,
            log,
            formula,
        } = self;
        match formula {
            Some(formula) => Ok(Case {
                number,
                log,
                formula,
            }),
            None => Err(CaseFault::Misplaced),
        }
    }

    fn take(&mut self, alloc: Global, head: Line, words: &mut Words<'_>) -> Result<(), CaseFault> {
        match head {
            Line::Point => self.add_point(alloc, words),
            Line::Event => self.add_event(alloc, words),
            Line::Formula => self.set_formula(alloc, words),
            Line::Case | Line::End => Err(CaseFault::Misplaced),
        }
    }

    fn add_point(&mut self, alloc: Global, words: &mut Words<'_>) -> Result<(), CaseFault> {
        let ts = natural(alloc, words.next()?)?;
        if self.formula.is_some() {
            return Err(CaseFault::Misplaced);
        }
        if self.log.last().is_some_and(|last| ts < last.ts) {
            return Err(CaseFault::FallingTime);
        }
        self.log.push(TimePoint {
            ts,
            db: Db::new(alloc),
        })?;
        Ok(())
    }

    fn add_event(&mut self, alloc: Global, words: &mut Words<'_>) -> Result<(), CaseFault> {
        let event = event(alloc, words)?;
        if self.formula.is_some() {
            return Err(CaseFault::Misplaced);
        }
        match self.log.last_mut() {
            Some(point) => Ok(point.db.insert(event)?),
            None => Err(CaseFault::Misplaced),
        }
    }

    fn set_formula(&mut self, alloc: Global, words: &mut Words<'_>) -> Result<(), CaseFault> {
        if self.formula.is_some() {
            return Err(CaseFault::Misplaced);
        }
        self.formula = Some(formula(alloc, words)?);
        Ok(())
    }
}

// An event: a predicate's number, and as many values as there are words.
fn event(alloc: Global, words: &mut Words<'_>) -> Result<Event, CaseFault>
    ensures { IfOk result (λ event. words.old ≡ decimal event.pred ∷ map spelled_value event.args) }
{
    Ok(Event {
        pred: small_natural(alloc, words.next()?)?,
        args: Row::new(values(alloc, words)?),
    })
}

// All words that are left, as values.
fn values(alloc: Global, words: &mut Words<'_>) -> Result<Vec<Value>, CaseFault>
    ensures { IfOk result (λ values. words.old ≡ map spelled_value values.items) }
{
    let mut values = Vec::new(alloc);
    'words: while let Some(word) = words.take() {
        values.push(value(alloc, word)?)?;
    }
    Ok(values)
}
