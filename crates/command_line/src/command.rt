//! What the words ask for.
ghost use Rattle.std.specs.Prelude.{◌≡◌};
ghost use Rattle.std.specs.List.{list_any};
ghost use Rattle.command_line.specs.CommandViews.{command_in, options_in, sources_in, text_in};
ghost use Rattle.command_line.specs.Words.{Run, is_input, name_if_any, shares_input};

use crate::run_options::RunOptions;

/// The names of the signature's file and of the policy's.
#[derive(Clone, Copy)]
pub struct Sources<'a> {
    pub sig: &'a str,
    pub policy: &'a str,
}

/// What is to be done.
#[derive(Clone, Copy)]
pub enum Command<'a> {
    /// To monitor a log.
    Run(Sources<'a>, RunOptions<'a>),
    /// To tell whether the policy can be monitored.
    Check(Sources<'a>),
    /// To monitor the demo of this seed.
    Demo(u64),
}

fn is_input(name: &str) -> bool
    ensures { result ≡ is_input name.now }
{
    name == "-"
}

// Whether this file is named, as standard input.
fn names_input(name: Option<&str>) -> bool
    ensures { result ≡ list_any is_input (name_if_any (text_in name.entry)) }
{
    match name {
        Some(name) => is_input(name),
        None => false,
    }
}

// Whether two of a run's files are standard input.
#[tactic(auto, using(crate::proofs::WordsLemmas::two_of_run))]
fn shares_run(sources: &Sources<'_>, options: &RunOptions<'_>) -> bool
    ensures { result ≡ shares_input (Run (sources_in sources.now) (options_in options.now)) }
{
    let policy = is_input(sources.policy);
    let changes = names_input(options.changes);
    let log = is_input(options.log);
    if is_input(sources.sig) {
        policy || changes || log
    } else if policy {
        changes || log
    } else {
        changes && log
    }
}

impl<'a> Command<'a> {
    /// Whether standard input is named more than once.
    #[tactic(auto, using(crate::proofs::WordsLemmas::two_of_two))]
    pub fn shares_input(&self) -> bool
        ensures { result ≡ shares_input (command_in self.now) }
    {
        match self {
            Command::Run(sources, options) => shares_run(sources, options),
            Command::Check(sources) => is_input(sources.sig) && is_input(sources.policy),
            Command::Demo(_) => false,
        }
    }
}
