//! Runs cases of the monitor over memory, and prints what each run answers.
#![tactic(auto)]

mod case;
mod cursor;

use case::{Case, CaseFault, read_case};
use cursor::Cursor;
use mon_outside::{MemInputs, MemSink, OpenGate};
use monitor_main::{Status, run};
use std::alloc::Global;
use std::io;
use std::io::{BufWriter, Read, Write};
use std::process::ExitCode;
use std::sync::Wait;
use std::thread::{Builder, Threads};

// The bytes of the stack on which cases are answered: some of their policies nest as deeply as a policy may, and code
// that isn't optimised takes many bytes a level.
const STACK: usize = 1 << 26;

// Prints bytes under a heading, with their number.
fn print_bytes<W: Write>(out: &mut W, heading: &str, bytes: &[u8]) -> io::Result<()> {
    let length = bytes.len();
    writeln!(out, "{heading} {length}")?;
    out.write_all(bytes)?;
    out.write_all(b"\n")
}

// Prints what a run answered.
fn print_answer<W: Write>(
    out: &mut W,
    name: &str,
    status: Status,
    text: &[u8],
    errors: &[u8],
) -> io::Result<()> {
    let code = status.code();
    writeln!(out, "case {name}")?;
    writeln!(out, "status {code}")?;
    print_bytes(out, "out", text)?;
    print_bytes(out, "err", errors)
}

// Runs a case and prints its answer.
fn answer<R: Threads + Wait + Sync, W: Write>(
    rt: &R,
    alloc: Global,
    case: Case,
    out: &mut W,
) -> io::Result<()> {
    let words = case.words;
    let mut inputs = MemInputs::new(case.files.as_slice(), case.piece, case.fail.as_slice());
    let mut text = MemSink::new(alloc, case.fail_out.as_slice());
    let mut errors = MemSink::new(alloc, case.fail_err.as_slice());
    let status = run(
        rt,
        alloc,
        words,
        &mut inputs,
        &mut text,
        &mut errors,
        &OpenGate,
    );
    print_answer(
        out,
        case.name.as_str(),
        status,
        text.written(),
        errors.written(),
    )
}

// Answers case after case, up to one that is malformed.
fn answer_all<R: Threads + Wait + Sync, W: Write>(
    rt: &R,
    alloc: Global,
    cases: &[u8],
    out: &mut W,
) -> io::Result<Option<usize>> {
    let mut cursor = Cursor::new(cases);
    for _ in 0..u64::MAX {
        if cursor.is_at_end() {
            break;
        }
        match read_case(alloc, &mut cursor) {
            Ok(case) => answer(rt, alloc, case, out)?,
            Err(CaseFault::Malformed) => return Ok(Some(cursor.line_number())),
            Err(CaseFault::Memory(e)) => return Err(io::Error::from(e)),
        }
    }
    Ok(None)
}

// All of standard input.
fn read_input(rt: HostRuntime) -> io::Result<Vec<u8>> {
    let mut cases = Vec::new(rt.alloc());
    rt.stdin().read_to_end(&mut cases)?;
    Ok(cases)
}

// The status of all cases, with a line for one that is malformed.
fn tell_malformed(rt: HostRuntime, malformed: Option<usize>) -> io::Result<ExitCode> {
    match malformed {
        Some(line) => {
            eprintln!(rt; "line {line}: no case is written so")?;
            Ok(ExitCode::from(2))
        }
        None => Ok(ExitCode::SUCCESS),
    }
}

// Answers standard input.
fn answer_input<R: Threads + Wait + Sync>(threads: &R, rt: HostRuntime) -> io::Result<ExitCode> {
    let cases = read_input(rt)?;
    let mut out = BufWriter::new(rt.alloc(), rt.stdout())?;
    let malformed = answer_all(threads, rt.alloc(), cases.as_slice(), &mut out);
    out.flush()?;
    tell_malformed(rt, malformed?)
}

fn main(rt: HostRuntime) -> io::Result<ExitCode> {
    let answers = Builder::new()
        .stack_size(STACK)
        .spawn(&rt, move || answer_input(&rt, rt))?;
    answers.join(&rt)
}
