//! Answers cases of single calls, line by line: what the monitor's command line doesn't show of its
//! readers and of its files in memory.
#![tactic(auto)]

mod fragment;
mod model;
mod outside;
mod points;
mod readers;
mod stop;
mod texts;
mod tokens;

use std::alloc::{AllocError, Global};
use std::io::{self, Read, Write};
use stop::Stop;
use texts::parted;

// The answer to a case, by its first word.
fn answer(alloc: Global, case: &str) -> Result<String, Stop> {
    let (kind, case) = parted(case);
    match kind {
        "predicate" | "policy" => readers::answer(alloc, kind, case),
        "core" => fragment::core(alloc, case),
        "load" | "read" | "write" | "gather" => outside::answer(alloc, kind, case),
        "interval" | "lines" => model::answer(alloc, kind, case),
        _ => answer_of_tokens(alloc, kind, case),
    }
}

// The same of a case of tokens or of the time-points that they make.
fn answer_of_tokens(alloc: Global, kind: &str, case: &str) -> Result<String, Stop> {
    match kind {
        "tokens" | "contents" | "twice" | "front" | "integer" => tokens::answer(alloc, kind, case),
        "points" | "limited" | "unfinished" | "fed" | "pieces" => points::answer(alloc, kind, case),
        _ => Err(Stop::Malformed),
    }
}

// The line that stands for a line of the cases: a comment and an empty line stand for themselves.
fn answer_line(alloc: Global, line: &str) -> Result<String, AllocError> {
    if line.is_empty() || line.starts_with('#') {
        return String::from_str(alloc, line);
    }
    match answer(alloc, line) {
        Ok(text) | Err(Stop::Told(text)) => Ok(text),
        Err(Stop::Malformed) => String::from_str(alloc, "no case is written so"),
        Err(Stop::Memory(e)) => Err(e),
    }
}

fn put_answers(alloc: Global, cases: &str, answers: &mut String) -> Result<(), AllocError> {
    for line in cases.lines() {
        put_answer(alloc, line, answers)?;
    }
    Ok(())
}

fn put_answer(alloc: Global, line: &str, answers: &mut String) -> Result<(), AllocError> {
    let answer = answer_line(alloc, line)?;
    answers.push_str(answer.as_str())?;
    Ok(answers.push('\n')?)
}

fn main(rt: HostRuntime) -> io::Result<()> {
    let mut cases = String::new(rt.alloc());
    rt.reader().read_to_string(&mut cases)?;
    let mut answers = String::new(rt.alloc());
    put_answers(rt.alloc(), cases.as_str(), &mut answers)?;
    rt.stdout().write_all(answers.as_bytes())
}
