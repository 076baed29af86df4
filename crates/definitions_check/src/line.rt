//! The lines of a case.
use crate::fault::CaseFault;

/// What a line is, by its first word.
#[derive(Clone, Copy)]
pub enum Line {
    Case,
    Point,
    Event,
    Formula,
    End,
}

/// The line of a first word.
pub fn line_of(word: &[u8]) -> Result<Line, CaseFault> {
    for (line, name) in [
        (Line::Case, "case"),
        (Line::Point, "point"),
        (Line::Event, "event"),
        (Line::Formula, "formula"),
        (Line::End, "end"),
    ] {
        if name.as_bytes() == word {
            return Ok(line);
        }
    }
    Err(CaseFault::UnknownWord)
}
