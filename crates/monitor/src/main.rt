//! The monitor: writes, for each time-point of a log, the valuations that violate a policy there.
#![tactic(auto)]

use mon_outside::{BufferedSink, OpenGate, write_whole};
use monitor_main::{RealInputs, RealSink, Status, run};
use std::process::ExitCode;
use std::rt::Env;
use std::{env, io};

// The words of the command line. Words that are no text are no command line, and neither are none.
fn words<R: Env + AllocGlobal>(rt: &R) -> io::Result<Vec<String>> {
    match env::args(rt) {
        Ok(words) => Ok(words.collect(rt.alloc())?),
        Err(e) if e.kind() == io::ErrorKind::InvalidData => Ok(Vec::new(rt.alloc())),
        Err(e) => Err(e),
    }
}

fn main(rt: HostRuntime) -> ExitCode {
    let mut inputs = RealInputs::new(&rt, rt.stdin());
    let mut err = RealSink::new(rt.stderr());
    let out = BufferedSink::new(rt.alloc(), RealSink::new(rt.stdout()));
    let status = match (words(&rt), out) {
        (Ok(words), Ok(mut out)) => run(
            &rt,
            rt.alloc(),
            words,
            &mut inputs,
            &mut out,
            &mut err,
            &OpenGate,
        ),
        _ => {
            let _ = write_whole(&mut err, b"memory\n");
            Status::Memory
        }
    };
    ExitCode::from(status.code())
}
