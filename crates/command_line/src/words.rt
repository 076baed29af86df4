//! The words of the command line, as one `clap` command takes them.
ghost use Rattle.std.specs.Prelude.{◌≡◌, ◌≤◌, codes, Some, None, Err, IfOk, IfSome, option_map};
ghost use Rattle.clap.specs.Words.{first_of, rows_of, found_of};
ghost use Rattle.clap.specs.Words.{subcommand_of, subcommand_rows_of, FailsBy};
ghost use Rattle.command_line.specs.CommandViews.{HasThreadsFound, HasThreadsOf, command_in};
ghost use Rattle.command_line.specs.CommandViews.{options_in, sources_in, text_in};
ghost use Rattle.command_line.specs.Limits.{max_threads};
ghost use Rattle.command_line.specs.Words.{Demo, command_found, command_named, command_of};
ghost use Rattle.command_line.specs.Words.{IsThreadCount, monitor_app, run_options_of, seed_option, sources_of};
ghost use Rattle.command_line.specs.Words.{texts_of, option_value, words_fault};

use crate::command::{Command, Sources};
use crate::limits::{DEFAULT_THREADS, MAX_THREADS};
use crate::options::monitor_command;
use crate::run_options::RunOptions;
use clap::ArgMatches;
use clap::error::ErrorKind;
use std::alloc::Global;
use thiserror::Error;

/// Why no command was read.
#[derive(Clone, Copy, Debug, Error)]
pub enum WordsFault {
    /// The words are no command line, or two of the files that they name are standard input.
    #[error("Usage")]
    Usage,
    /// Memory was refused.
    #[error("Memory")]
    Memory,
}

// The value of an option, and no text where it has none.
#[tactic(auto, using(crate::proofs::WordsLemmas::first_value_rows))]
fn value_in<'a>(options: &ArgMatches<'a>, name: &str) -> &'a str
    ensures { result.now ≡ option_value name.now (rows_of (found_of options.now)) }
{
    options.get_str(name).unwrap_or("")
}

// The signature and the policy among the options.
fn sources_given<'a>(options: &ArgMatches<'a>) -> Sources<'a>
    ensures { sources_in result ≡ sources_of (rows_of (found_of options.now)) }
{
    Sources {
        sig: value_in(options, "sig"),
        policy: value_in(options, "policy"),
    }
}

// The name of the change script's file, if the options give one.
#[tactic(auto, using(crate::proofs::WordsLemmas::first_value_rows))]
fn changes_given<'a>(options: &ArgMatches<'a>) -> Option<&'a str>
    ensures { text_in result ≡ first_of (codes "changes") (rows_of (found_of options.now)) }
{
    options.get_str("changes")
}

fn seed_given(options: &ArgMatches<'_>) -> Option<u64>
    ensures { result ≡ seed_option (rows_of (found_of options.now)) }
{
    options.get_one::<u64>("seed")
}

fn threads_given(options: &ArgMatches<'_>) -> u32
    ensures few { result ≤ max_threads }
    ensures given { IsThreadCount (rows_of (found_of options.now)) result }
{
    // `clap` has tested the range, and gives the default where the option is left out: the last arm is never taken.
    match options.get_one::<u32>("threads") {
        Some(threads) if threads <= MAX_THREADS => threads,
        _ => DEFAULT_THREADS,
    }
}

// The strategy, the changes, the log and the number of threads among the options.
fn run_options_given<'a>(options: &ArgMatches<'a>) -> RunOptions<'a>
    ensures texts { options_in result ≡ run_options_of (rows_of (found_of options.now)) }
    ensures threads { IsThreadCount (rows_of (found_of options.now)) result.threads }
{
    RunOptions {
        strategy: value_in(options, "strategy"),
        changes: changes_given(options),
        log: value_in(options, "log"),
        threads: threads_given(options),
    }
}

// The demo of the seed among the options.
fn demo_given<'a>(options: &ArgMatches<'_>) -> Option<Command<'a>>
    ensures command { option_map command_in result
        ≡ option_map Demo (seed_option (rows_of (found_of options.now))) }
    ensures threads { IfSome result (HasThreadsOf (rows_of (found_of options.now))) }
{
    let seed = seed_given(options)?;
    Some(Command::Demo(seed))
}

// The command of this name with these options.
fn command_named<'a>(name: &str, options: &ArgMatches<'a>) -> Option<Command<'a>>
    ensures command { option_map command_in result
        ≡ command_named name.now (rows_of (found_of options.now)) }
    ensures threads { IfSome result (HasThreadsOf (rows_of (found_of options.now))) }
{
    if name == "run" {
        let sources = sources_given(options);
        return Some(Command::Run(sources, run_options_given(options)));
    }
    if name == "check" {
        return Some(Command::Check(sources_given(options)));
    }
    if name == "demo" {
        return demo_given(options);
    }
    None
}

// The command that was given.
fn command_given<'a>(matches: &ArgMatches<'a>) -> Option<Command<'a>>
    ensures command { option_map command_in result ≡ command_found (subcommand_rows_of matches.now) }
    ensures threads { IfSome result (HasThreadsFound (subcommand_rows_of matches.now)) }
{
    match matches.subcommand() {
        Some((name, options)) => command_named(name, options),
        None => None,
    }
}

// The matches of the words, where `clap` takes them.
#[tactic(auto, unfolding(crate::specs::Words::words_fault))]
fn matches_of<'a>(alloc: Global, words: &'a [String]) -> Result<ArgMatches<'a>, clap::Error>
    ensures rows { IfOk result (λ m.
        subcommand_rows_of m ≡ subcommand_of monitor_app (texts_of words.now)) }
    ensures fault { FailsBy (words_fault (texts_of words.now)) result }
{
    let command = monitor_command(alloc)?;
    command.try_get_matches_from(words)
}

/// The command and the names of its files, as `clap` reads them from the words, of which the first is the program's
/// name. No clause says when memory is refused.
#[tactic(auto, unfolding(crate::specs::Words::command_of, crate::specs::Words::command_given))]
pub fn read_words<'a>(alloc: Global, words: &'a [String]) -> Result<Command<'a>, WordsFault>
    ensures given { IfOk result (λ r. command_of (texts_of words.now) ≡ Some (command_in r)) }
    ensures threads { IfOk result (HasThreadsFound (subcommand_of monitor_app (texts_of words.now))) }
    ensures usage { result ≡ Err WordsFault.Usage → command_of (texts_of words.now) ≡ None }
{
    match matches_of(alloc, words) {
        Ok(matches) => match command_given(&matches) {
            Some(command) if !command.shares_input() => Ok(command),
            _ => Err(WordsFault::Usage),
        },
        Err(e) => match e.kind() {
            ErrorKind::OutOfMemory => Err(WordsFault::Memory),
            _ => Err(WordsFault::Usage),
        },
    }
}
