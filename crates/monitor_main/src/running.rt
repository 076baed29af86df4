//! The top call.
ghost use Rattle.std.specs.Prelude.{◌≡◌, ◌≢◌, ◌≤◌, [], Err, None};
ghost use Rattle.mon_outside.specs.Causes.{Rose, StoodStill};
ghost use Rattle.mon_outside.specs.Files.{ToldFiles};
ghost use Rattle.mon_outside.specs.Sink.{AppendsFront};
ghost use Rattle.mon_outside.specs.Views.{inputs_view, sink_view};
ghost use Rattle.monitor_main.specs.Answer.{answer};
ghost use Rattle.monitor_main.specs.Decisions.{AsksByWords, HandsOn, Obeys};
ghost use Rattle.lone_worker.specs.Effects.{effect};
ghost use Rattle.monitor_main.specs.Outcomes.{FailsToRead, IsDecidedBy, IsGiven, Reports, TellsLine};
ghost use Rattle.monitor_main.specs.Refusals.{line_of};
ghost use Rattle.command_line.specs.Words.{command_of, texts_of};

use crate::commands::carry_out;
use crate::refusal::Refusal;
use crate::status::Status;
use command_line::read_words;
use mon_outside::{Failed, Gate, Inputs, Sink, write_whole};
use std::alloc::Global;
use std::sync::Wait;
use std::thread::Threads;

// What the words and the files come to: whether some line has a row, or why it is refused.
fn decide<R: Threads + Wait + Sync, I: Inputs, O: Sink, G: Gate + Sync>(
    rt: &R,
    alloc: Global,
    words: &[String],
    inputs: &mut I,
    out: &mut O,
    gate: &G,
) -> Result<bool, Refusal>
    ensures { Obeys (texts_of words.now)
        (effect I.Inputs O.Sink inputs.old inputs.new out.old out.new) result }
{
    let command = read_words(alloc, words)?;
    carry_out(rt, alloc, &command, inputs, out, gate)
}

// Hands on what the output holds back behind a decision. Where that fails, so does the output.
fn hand_on<O: Sink>(decision: Result<bool, Refusal>, out: &mut O) -> Result<bool, Refusal>
    ensures kept { O.written out.new ≡ O.written out.old }
    ensures later { O.faults out.old ≤ O.faults out.new }
    ensures handed_on { HandsOn decision (sink_view O.Sink out.old) (sink_view O.Sink out.new) result }
{
    match out.flush() {
        Ok(()) => decision,
        Err(Failed) => Err(Refusal::Write),
    }
}

// The same decision, with nothing held back.
fn conclude<R: Threads + Wait + Sync, I: Inputs, O: Sink, G: Gate + Sync>(
    rt: &R,
    alloc: Global,
    words: &[String],
    inputs: &mut I,
    out: &mut O,
    gate: &G,
) -> Result<bool, Refusal>
    ensures obeys { Obeys (texts_of words.now)
        (effect I.Inputs O.Sink inputs.old inputs.new out.old out.new) result }
    ensures handed_on { result ≢ Err Refusal.Write → O.held out.new ≡ [] }
{
    let decision = decide(rt, alloc, words, inputs, out, gate);
    hand_on(decision, out)
}

// Writes a line and hands it on, as far as that can be done.
#[tactic(auto, using(lone_worker::proofs::SinkLemmas::whole_front))]
fn tell<E: Sink>(line: &[u8], err: &mut E)
    ensures told { TellsLine (E.written err.old) (E.written err.new)
        (E.faults err.old) (E.faults err.new) line.now }
    ensures handed_on { StoodStill (E.faults err.old) (E.faults err.new) → E.held err.new ≡ [] }
{
    if write_whole(err, line).is_ok() {
        let _ = err.flush();
    }
}

// Tells that memory was refused. It takes none.
#[tactic(auto, unfolding(crate::specs::Refusals::line_of))]
fn tell_memory<E: Sink>(err: &mut E)
    ensures told { TellsLine (E.written err.old) (E.written err.new)
        (E.faults err.old) (E.faults err.new) (line_of Refusal.Memory) }
    ensures handed_on { StoodStill (E.faults err.old) (E.faults err.new) → E.held err.new ≡ [] }
{
    tell(b"memory\n", err);
}

// Tells the refusal, and answers the status that stands for it.
#[tactic(auto, using(crate::proofs::ReportLemmas::reported, crate::proofs::ReportLemmas::reported_memory))]
fn report<E: Sink>(alloc: Global, refusal: Refusal, err: &mut E) -> Status
    ensures reports { Reports refusal result (E.written err.old) (E.written err.new)
        (E.faults err.old) (E.faults err.new) }
    ensures handed_on { StoodStill (E.faults err.old) (E.faults err.new) → E.held err.new ≡ [] }
{
    match refusal.line(alloc) {
        Ok(line) => {
            tell(line.as_slice(), err);
            refusal.status()
        }
        Err(_) => {
            tell_memory(err);
            Status::Memory
        }
    }
}

/// Runs the command that the words name. `words` begins with the program's name. Where a call of `err`
/// fails, the status and the output stay what they are.
pub fn run<R: Threads + Wait + Sync, I: Inputs, O: Sink, E: Sink, G: Gate + Sync>(
    rt: &R,
    alloc: Global,
    words: Vec<String>,
    inputs: &mut I,
    out: &mut O,
    err: &mut E,
    gate: &G,
) -> Status
    // Without want of memory and without a failed call, the answer is given whole.
    ensures headline { ToldFiles (I.files inputs.old) (λ files.
        StoodStill (I.faults inputs.old) (I.faults inputs.new)
        → StoodStill (O.faults out.old) (O.faults out.new)
        → StoodStill (E.faults err.old) (E.faults err.new) → result ≢ Status.Memory
        → IsGiven (answer (texts_of words.items) files) result
        (O.written out.old) (O.written out.new) (E.written err.old) (E.written err.new)) }

    // Whatever fails outside, a status that the words and the files decide is the answer's.
    ensures decided { ToldFiles (I.files inputs.old) (λ files.
        result ≢ Status.Read → result ≢ Status.Write → result ≢ Status.Memory
        → IsDecidedBy (answer (texts_of words.items) files) result
        (O.written out.old) (O.written out.new) (E.written err.old) (E.written err.new)
        (E.faults err.old) (E.faults err.new)) }
    ensures front { ToldFiles (I.files inputs.old) (λ files. AppendsFront
        (O.written out.old) (O.written out.new) (answer (texts_of words.items) files).out) }

    // Only words that give no command are refused, and these always are, unless the output failed or memory was
    // refused: told files or not.
    ensures usage { result ≡ Status.Usage → command_of (texts_of words.items) ≡ None }
    ensures refused { command_of (texts_of words.items) ≡ None
        → result ≢ Status.Write → result ≢ Status.Memory → result ≡ Status.Usage }

    // No file is asked for before all before it in the order are accepted.
    ensures asks { AsksByWords (texts_of words.items)
        (inputs_view I.Inputs inputs.old) (inputs_view I.Inputs inputs.new) }

    // At the end the output holds nothing back, nor does `err` where a line was told.
    ensures flushed { result ≢ Status.Write → result ≢ Status.Memory → O.held out.new ≡ [] }
    ensures told { result ≢ Status.Clean → result ≢ Status.Violated
        → StoodStill (E.faults err.old) (E.faults err.new) → E.held err.new ≡ [] }

    // A failed call is told only where its count rose.
    ensures read_cause { result ≡ Status.Read → Rose (I.faults inputs.old) (I.faults inputs.new) }
    ensures read { ToldFiles (I.files inputs.old) (λ files. result ≡ Status.Read
        → FailsToRead (texts_of words.items) files
        (effect I.Inputs O.Sink inputs.old inputs.new out.old out.new)
        (E.written err.old) (E.written err.new) (E.faults err.old) (E.faults err.new)) }
    ensures write_cause { result ≡ Status.Write → Rose (O.faults out.old) (O.faults out.new) }
    ensures write { result ≡ Status.Write → TellsLine (E.written err.old) (E.written err.new)
        (E.faults err.old) (E.faults err.new) (line_of Refusal.Write) }
    ensures memory { result ≡ Status.Memory → TellsLine (E.written err.old) (E.written err.new)
        (E.faults err.old) (E.faults err.new) (line_of Refusal.Memory) }
    ensures files { I.files inputs.new ≡ I.files inputs.old }
{
    match conclude(rt, alloc, words.as_slice(), inputs, out, gate) {
        Ok(true) => Status::Violated,
        Ok(false) => Status::Clean,
        Err(refusal) => report(alloc, refusal, err),
    }
}
