//! The lines in which refusals are told.
ghost use Rattle.std.specs.Prelude.{◌≡◌, ◌++◌, codes, IfOk, IfSome};
ghost use Rattle.monitorable.specs.FaultTexts.{fault_text as fragment_text};
ghost use Rattle.monitor_main.specs.FaultLines.{fault_line, file_text, too_long};
ghost use Rattle.monitor_main.specs.Refusals.{line_of};

use crate::limits::MAX_FILE;
use crate::refusal::{InputFile, Refusal};
use monitorable::FragmentFault;
use std::alloc::{AllocError, Global};
use std::fmt::Display;

const USAGE: &[u8] =
    b"usage: run --sig F --policy F --log F [--strategy S] [--changes F] [--threads T] \
    or check --sig F --policy F or demo SEED\n";

fn file_text(file: InputFile) -> &'static str
    ensures { result.now ≡ file_text file }
{
    match file {
        InputFile::Signature => "signature",
        InputFile::Policy => "policy",
        InputFile::Changes => "changes",
        InputFile::Log => "log",
    }
}

// The line of a signature, a policy, a strategy's text or a change script that is too long.
#[tactic(auto, unfolding(crate::specs::FaultLines::too_long))]
fn long_line(alloc: Global, input: &str) -> Result<Vec<u8>, AllocError>
    ensures { IfOk result (λ line. line.items ≡ fault_line input.now too_long) }
{
    Ok(format!(in alloc; "{input}: TooLong at {MAX_FILE}\n")?.into_bytes())
}

// The line of an input's fault, as the fault is printed.
fn printed_line<F: Display>(alloc: Global, input: &str, fault: &F) -> Result<Vec<u8>, AllocError>
    ensures { IfOk result (λ line. IfSome (F.output fault.now) (λ text.
        line.items ≡ fault_line input.now text)) }
{
    Ok(format!(in alloc; "{input}: {fault}\n")?.into_bytes())
}

// The line of a policy that can't be monitored, the variable's name as it stands there.
fn fragment_line(alloc: Global, fault: &FragmentFault) -> Result<Vec<u8>, AllocError>
    ensures { IfOk result (λ line.
        line.items ≡ fault_line (codes "policy") (fragment_text fault.now)) }
{
    let text = fault.text(alloc)?;
    let mut line = Vec::from_slice(alloc, b"policy: ")?;
    line.extend_from_slice(text.as_slice())?;
    line.push(b'\n')?;
    Ok(line)
}

// The line of a file that could not be read.
fn read_line(alloc: Global, file: InputFile) -> Result<Vec<u8>, AllocError>
    ensures { IfOk result (λ line.
        line.items ≡ codes "read: " ++ file_text file ++ codes "\n") }
{
    let name = file_text(file);
    Ok(format!(in alloc; "read: {name}\n")?.into_bytes())
}

impl Refusal {
    /// The line that says why.
    #[tactic(auto, unfolding(crate::specs::Refusals::line_of, crate::specs::Refusals::usage_line))]
    pub fn line(&self, alloc: Global) -> Result<Vec<u8>, AllocError>
        ensures { IfOk result (λ line. line.items ≡ line_of self.now) }
    {
        match self {
            Refusal::Usage => Vec::from_slice(alloc, USAGE),
            Refusal::LongSignature => long_line(alloc, "signature"),
            Refusal::Signature(fault) => printed_line(alloc, "signature", fault),
            Refusal::LongPolicy => long_line(alloc, "policy"),
            Refusal::Policy(fault) => printed_line(alloc, "policy", fault),
            Refusal::Fragment(fault) => fragment_line(alloc, fault),
            Refusal::LongStrategy => long_line(alloc, "strategy"),
            Refusal::Strategy(fault) => printed_line(alloc, "strategy", fault),
            Refusal::LongChanges => long_line(alloc, "changes"),
            Refusal::Changes(fault) => printed_line(alloc, "changes", fault),
            Refusal::Log(fault) => printed_line(alloc, "log", fault),
            Refusal::Read(file) => read_line(alloc, *file),
            Refusal::Write => Vec::from_slice(alloc, b"write\n"),
            Refusal::Memory => Vec::from_slice(alloc, b"memory\n"),
        }
    }
}
