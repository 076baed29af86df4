//! Answers cases of single calls, line by line: what a whole run doesn't show of the machine of router and workers, of
//! the splitting of events and states, and of strategies.
#![tactic(auto)]

mod pieces;
mod script;
mod setting;
mod slices;
mod steps;
mod texts;

use pieces::pieces;
use setting::{Setting, setting_of};
use slices::{owners, slices};
use std::alloc::{AllocError, Global};
use std::io::{self, Read, Write};
use steps::machine;
use texts::{Case, Stop, case_of, parted};

// The answer to a case, by its first word.
fn answer(alloc: Global, text: &str) -> Result<Vec<u8>, Stop> {
    let (kind, text) = parted(text);
    let case = case_of(text)?;
    let setting = setting_of(alloc, case.signature, case.policy)?;
    answer_over(alloc, &setting, kind, &case)
}

fn answer_over(
    alloc: Global,
    setting: &Setting,
    kind: &str,
    case: &Case<'_>,
) -> Result<Vec<u8>, Stop> {
    match kind {
        "owners" => owners(alloc, setting, case),
        "slices" => slices(alloc, setting, case),
        "pieces" => pieces(alloc, setting, case),
        "machine" => machine(alloc, setting, case),
        _ => Err(Stop::Malformed),
    }
}

// The line that stands for a line of the cases: a comment and an empty line stand for themselves.
fn answer_line(alloc: Global, line: &str) -> Result<Vec<u8>, AllocError> {
    if line.is_empty() || line.starts_with('#') {
        return Vec::from_slice(alloc, line.as_bytes());
    }
    match answer(alloc, line) {
        Ok(answer) => Ok(answer),
        Err(Stop::Told(fault)) => Ok(fault.into_bytes()),
        Err(Stop::Malformed) => Vec::from_slice(alloc, b"no case is written so"),
        Err(Stop::Memory(e)) => Err(e),
    }
}

fn put_answer(alloc: Global, line: &str, told: &mut Vec<u8>) -> Result<(), AllocError> {
    let answer = answer_line(alloc, line)?;
    told.extend_from_slice(answer.as_slice())?;
    Ok(told.push(b'\n')?)
}

fn put_answers(alloc: Global, cases: &str, told: &mut Vec<u8>) -> Result<(), AllocError> {
    for text in cases.lines() {
        put_answer(alloc, text, told)?;
    }
    Ok(())
}

fn main(rt: HostRuntime) -> io::Result<()> {
    let mut cases = String::new(rt.alloc());
    rt.reader().read_to_string(&mut cases)?;
    let mut told = Vec::new(rt.alloc());
    put_answers(rt.alloc(), cases.as_str(), &mut told)?;
    rt.stdout().write_all(told.as_slice())
}
