//! One case: words, files, and the calls of the outside that fail.
ghost use Rattle.std.specs.Prelude.{◌<◌, IfOk};

use crate::cursor::Cursor;
use mon_outside::NamedFile;
use std::alloc::{AllocError, AllocFailed, Global};
use std::str;

/// A run over memory.
#[derive(Drop)]
pub struct Case {
    pub name: String,
    /// The most bytes that a read gives.
    pub piece: usize,
    /// The numbers of the opens and reads that fail, and of the writes.
    pub fail: Vec<u64>,
    pub fail_out: Vec<u64>,
    pub fail_err: Vec<u64>,
    pub words: Vec<String>,
    pub files: Vec<NamedFile>,
    ghost some: { 0 < piece },
}

/// Why no case was read.
#[derive(Debug, Drop)]
pub enum CaseFault {
    Malformed,
    Memory(AllocError),
}

impl From<AllocError> for CaseFault {
    fn from(e: AllocError) -> CaseFault {
        CaseFault::Memory(e)
    }
}

impl<T: Drop> From<AllocFailed<T>> for CaseFault {
    fn from(e: AllocFailed<T>) -> CaseFault {
        CaseFault::Memory(AllocError::from(e))
    }
}

// A value, or the fault where there is none.
fn present<T: Drop>(value: Option<T>) -> Result<T, CaseFault> {
    value.ok_or(CaseFault::Malformed)
}

// The next line as text.
fn text_line<'a>(cursor: &mut Cursor<'a>) -> Result<&'a str, CaseFault> {
    let line = present(cursor.next_line())?;
    match str::from_utf8(line) {
        Ok(text) => Ok(text),
        Err(_) => Err(CaseFault::Malformed),
    }
}

// Puts the numbers of a line behind others.
fn put_numbers(numbers: &mut Vec<u64>, text: &str) -> Result<(), CaseFault> {
    for word in text.split(' ') {
        match word.parse::<u64>() {
            Ok(number) => numbers.push(number)?,
            Err(_) => return Err(CaseFault::Malformed),
        }
    }
    Ok(())
}

// A line's first word, and what stands behind it.
fn parted(line: &str) -> Result<(&str, &str), CaseFault> {
    present(line.split_once(' '))
}

// Reads the file of this head: its name, its length, and its bytes on the lines behind.
fn read_file(alloc: Global, cursor: &mut Cursor<'_>, head: &str) -> Result<NamedFile, CaseFault> {
    let (name, length) = present(head.rsplit_once(' '))?;
    let Ok(length) = length.parse::<usize>() else {
        return Err(CaseFault::Malformed);
    };
    let bytes = present(cursor.next_bytes(length))?;
    Ok(NamedFile {
        name: String::from_str(alloc, name)?,
        bytes: Vec::from_slice(alloc, bytes)?,
    })
}

// Puts a word behind others.
fn put_word(alloc: Global, words: &mut Vec<String>, word: &str) -> Result<(), CaseFault> {
    let word = String::from_str(alloc, word)?;
    Ok(words.push(word)?)
}

// Puts the file of this head behind others.
fn put_file(
    alloc: Global,
    files: &mut Vec<NamedFile>,
    cursor: &mut Cursor<'_>,
    head: &str,
) -> Result<(), CaseFault> {
    let file = read_file(alloc, cursor, head)?;
    Ok(files.push(file)?)
}

// Puts what a line says into the case.
fn put_line(
    alloc: Global,
    case: &mut Case,
    cursor: &mut Cursor<'_>,
    line: &str,
) -> Result<(), CaseFault> {
    let (key, value) = parted(line)?;
    match key {
        "fail" => put_numbers(&mut case.fail, value),
        "fail-out" => put_numbers(&mut case.fail_out, value),
        "fail-err" => put_numbers(&mut case.fail_err, value),
        "word" => put_word(alloc, &mut case.words, value),
        "file" => put_file(alloc, &mut case.files, cursor, value),
        _ => Err(CaseFault::Malformed),
    }
}

// The value of a line that begins with this key.
fn value_of<'a>(line: &'a str, key: &str) -> Result<&'a str, CaseFault> {
    let (found, value) = parted(line)?;
    if found == key {
        Ok(value)
    } else {
        Err(CaseFault::Malformed)
    }
}

// The most bytes that a read gives.
fn piece_of(line: &str) -> Result<usize, CaseFault>
    ensures { IfOk result (λ piece. 0 < piece) }
{
    let value = value_of(line, "piece")?;
    match value.parse::<usize>() {
        Ok(piece) if piece > 0 => Ok(piece),
        _ => Err(CaseFault::Malformed),
    }
}

// A case of this name, without words and files.
fn empty_case(alloc: Global, name: &str, piece: usize) -> Result<Case, CaseFault>
    requires { 0 < piece }
{
    Ok(Case {
        name: String::from_str(alloc, name)?,
        piece,
        fail: Vec::new(alloc),
        fail_out: Vec::new(alloc),
        fail_err: Vec::new(alloc),
        words: Vec::new(alloc),
        files: Vec::new(alloc),
    })
}

// Puts the lines up to `end` into the case.
fn put_lines(alloc: Global, case: &mut Case, cursor: &mut Cursor<'_>) -> Result<(), CaseFault> {
    for _ in 0..usize::MAX {
        let line = text_line(cursor)?;
        if line == "end" {
            return Ok(());
        }
        put_line(alloc, case, cursor, line)?;
    }
    Err(CaseFault::Malformed)
}

// Reads the first two lines of a case.
fn begun(alloc: Global, cursor: &mut Cursor<'_>) -> Result<Case, CaseFault> {
    let name = value_of(text_line(cursor)?, "case")?;
    let piece = piece_of(text_line(cursor)?)?;
    empty_case(alloc, name, piece)
}

/// Reads the next case.
pub fn read_case(alloc: Global, cursor: &mut Cursor<'_>) -> Result<Case, CaseFault> {
    let mut case = begun(alloc, cursor)?;
    match put_lines(alloc, &mut case, cursor) {
        Ok(()) => Ok(case),
        Err(fault) => Err(fault),
    }
}
