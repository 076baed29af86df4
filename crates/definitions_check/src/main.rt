//! Answers, for formulas over small logs, how many positions are settled, from the first one on, and which
//! rows violate the formula at each position, by the definitions of `mfotl_model`.
#![tactic(auto)]

mod answers;
mod cases;
mod fault;
mod formula;
mod line;
mod lines;
mod operator;
mod parts;
mod values;
mod words;

use answers::answer;
use cases::{Case, CaseReader};
use fault::{CaseFault, Stop};
use std::alloc::{AllocError, Global};
use std::io::{Read, Write};
use std::process::ExitCode;

// The exit status where a case is malformed.
const MALFORMED: u8 = 2;

fn main(rt: HostRuntime) -> ExitCode {
    match run(&rt) {
        Ok(true) => ExitCode::SUCCESS,
        Ok(false) => ExitCode::from(MALFORMED),
        Err(stop) => {
            let _ = eprintln!(rt; "{stop}");
            ExitCode::from(stop.status())
        }
    }
}

// Whether each case was well formed.
fn run(rt: &HostRuntime) -> Result<bool, Stop> {
    let alloc = rt.alloc();
    let mut cases = String::new(alloc);
    if rt.reader().read_to_string(&mut cases).is_err() {
        return Err(Stop::Read);
    }
    let mut answers = Vec::new(alloc);
    let Ok(is_well_formed) = put_answers(alloc, cases.as_str(), &mut answers) else {
        return Err(Stop::Memory);
    };
    if rt.stdout().write_all(answers.as_slice()).is_err() {
        return Err(Stop::Write);
    }
    Ok(is_well_formed)
}

// Puts the answers to all cases behind others, and says whether each case was well formed.
fn put_answers(alloc: Global, cases: &str, answers: &mut Vec<u8>) -> Result<bool, AllocError> {
    let mut reader = CaseReader::new();
    put_lines(alloc, &mut reader, cases, answers)
}

fn put_lines(
    alloc: Global,
    reader: &mut CaseReader,
    cases: &str,
    answers: &mut Vec<u8>,
) -> Result<bool, AllocError> {
    let mut number = 0u64;
    let mut is_well_formed = true;
    for line in cases.lines() {
        number = number.saturating_add(1);
        is_well_formed &= put_line(alloc, reader, line.as_bytes(), number, answers)?;
    }
    match reader.finish() {
        Ok(()) => Ok(is_well_formed),
        Err(fault) => put_fault(alloc, number, fault, answers),
    }
}

// Puts the answer to the case that ends with a line, if one does, and says whether the line is well
// formed.
fn put_line(
    alloc: Global,
    reader: &mut CaseReader,
    line: &[u8],
    number: u64,
    answers: &mut Vec<u8>,
) -> Result<bool, AllocError> {
    match reader.line(alloc, line) {
        Ok(Some(case)) => put_answer(alloc, &case, answers),
        Ok(None) => Ok(true),
        Err(fault) => put_fault(alloc, number, fault, answers),
    }
}

// Puts the answer to a case, which is well formed.
fn put_answer(alloc: Global, case: &Case, answers: &mut Vec<u8>) -> Result<bool, AllocError> {
    let text = answer(alloc, case)?;
    answers.extend_from_slice(text.as_slice())?;
    Ok(true)
}

// Puts the fault of the line of this number, and says that the line isn't well formed.
fn put_fault(
    alloc: Global,
    number: u64,
    fault: CaseFault,
    answers: &mut Vec<u8>,
) -> Result<bool, AllocError> {
    if let CaseFault::Memory = fault {
        return Err(AllocError);
    }
    let told = format!(in alloc; "line {number}: {}\n", fault.name())?;
    answers.extend_from_slice(told.as_bytes())?;
    Ok(false)
}
