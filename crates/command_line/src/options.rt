//! The `clap` command: its subcommands and their options.
ghost use Rattle.std.specs.Prelude.{◌≡◌, IfOk, false};
ghost use Rattle.clap.specs.Words.{app_of, rule_of, with_rule, with_subcommand};
ghost use Rattle.clap.specs.Simple.{on_top};
ghost use Rattle.clap.specs.declared.builder.Command.TheViews.{out-Command as fields_of};
ghost use Rattle.command_line.specs.Words.{changes_rule, check_app, demo_app, file_rule, monitor_app, option_rule};
ghost use Rattle.command_line.specs.Words.{run_app, seed_rule, sources_app, strategy_rule, strict, threads_rule};

use crate::limits::{MAX_SEED, MAX_THREADS};
use clap::builder::ValueParser;
use clap::{Arg, ArgAction, Command};
use std::alloc::{AllocError, Global};

// The required option `--NAME`, of one value.
fn file_option(alloc: Global, name: &str) -> Arg<'_>
    ensures rule { rule_of result ≡ file_rule name.entry.now }
    ensures local { result.global ≡ false }
{
    Arg::new(alloc, name)
        .long(name)
        .action(ArgAction::Set)
        .required(true)
}

// The option `--NAME`, of one value, by default this one.
fn option_with_default<'a>(alloc: Global, name: &'a str, default: &'a str) -> Arg<'a>
    ensures rule { rule_of result ≡ option_rule name.entry.now default.entry.now }
    ensures local { result.global ≡ false }
{
    Arg::new(alloc, name)
        .long(name)
        .action(ArgAction::Set)
        .default_value(default)
}

fn strategy_option<'a>(alloc: Global) -> Arg<'a>
    ensures rule { rule_of result ≡ strategy_rule }
    ensures local { result.global ≡ false }
{
    option_with_default(alloc, "strategy", "")
}

// The option `--changes`, of one value, which may be left out.
fn changes_option<'a>(alloc: Global) -> Arg<'a>
    ensures rule { rule_of result ≡ changes_rule }
    ensures local { result.global ≡ false }
{
    Arg::new(alloc, "changes")
        .long("changes")
        .action(ArgAction::Set)
}

// The option `--threads`, a number in its range.
fn threads_option<'a>(alloc: Global) -> Arg<'a>
    ensures rule { rule_of result ≡ threads_rule }
    ensures local { result.global ≡ false }
{
    let numbers = ValueParser::unsigned(0, u64::from(MAX_THREADS));
    option_with_default(alloc, "threads", "4").value_parser(numbers)
}

// The word of `demo`, a number in its range.
fn seed_argument<'a>(alloc: Global) -> Arg<'a>
    ensures rule { rule_of result ≡ seed_rule }
    ensures local { result.global ≡ false }
{
    let numbers = ValueParser::unsigned(0, MAX_SEED);
    Arg::new(alloc, "seed")
        .action(ArgAction::Set)
        .required(true)
        .value_parser(numbers)
}

// The command with one more file among its options.
fn with_file<'a>(
    alloc: Global,
    command: Command<'a>,
    name: &'a str,
) -> Result<Command<'a>, AllocError>
    requires { (fields_of command).has_globals ≡ false }
    ensures app { IfOk result (λ r. app_of r
        ≡ with_rule (app_of command.entry) (file_rule name.entry.now)) }
    ensures local { IfOk result (λ r. (fields_of r).has_globals ≡ false) }
{
    command.arg(file_option(alloc, name))
}

// The subcommand of this name, with a signature and a policy.
#[tactic(auto, unfolding(crate::specs::Words::sources_app))]
fn sources_command<'a>(alloc: Global, name: &'a str) -> Result<Command<'a>, AllocError>
    ensures app { IfOk result (λ r. app_of r ≡ sources_app name.entry.now) }
    ensures local { IfOk result (λ r. (fields_of r).has_globals ≡ false) }
{
    let command = with_file(alloc, Command::new(alloc, name), "sig")?;
    with_file(alloc, command, "policy")
}

#[tactic(auto, unfolding(crate::specs::Words::run_app))]
fn run_command<'a>(alloc: Global) -> Result<Command<'a>, AllocError>
    ensures app { IfOk result (λ r. app_of r ≡ run_app) }
    ensures local { IfOk result (λ r. (fields_of r).has_globals ≡ false) }
{
    let command = sources_command(alloc, "run")?;
    let command = with_file(alloc, command, "log")?;
    let command = command.arg(strategy_option(alloc))?;
    let command = command.arg(changes_option(alloc))?;
    command.arg(threads_option(alloc))
}

#[tactic(auto, unfolding(crate::specs::Words::check_app))]
fn check_command<'a>(alloc: Global) -> Result<Command<'a>, AllocError>
    ensures app { IfOk result (λ r. app_of r ≡ check_app) }
    ensures local { IfOk result (λ r. (fields_of r).has_globals ≡ false) }
{
    sources_command(alloc, "check")
}

#[tactic(auto, unfolding(crate::specs::Words::demo_app))]
fn demo_command<'a>(alloc: Global) -> Result<Command<'a>, AllocError>
    ensures app { IfOk result (λ r. app_of r ≡ demo_app) }
    ensures local { IfOk result (λ r. (fields_of r).has_globals ≡ false) }
{
    Command::new(alloc, "demo").arg(seed_argument(alloc))
}

// The command, one of whose subcommands is required, with neither help nor a version.
fn strict(command: Command<'_>) -> Command<'_>
    ensures { app_of result ≡ on_top strict (app_of command.entry) }
{
    command
        .disable_help_flag(true)
        .disable_help_subcommand(true)
        .disable_version_flag(true)
        .subcommand_required(true)
}

fn with_run<'a>(alloc: Global, command: Command<'a>) -> Result<Command<'a>, AllocError>
    ensures { IfOk result (λ r. app_of r ≡ with_subcommand (app_of command.entry) run_app.top) }
{
    let run = run_command(alloc)?;
    command.subcommand(run)
}

fn with_check<'a>(alloc: Global, command: Command<'a>) -> Result<Command<'a>, AllocError>
    ensures { IfOk result (λ r. app_of r ≡ with_subcommand (app_of command.entry) check_app.top) }
{
    let check = check_command(alloc)?;
    command.subcommand(check)
}

fn with_demo<'a>(alloc: Global, command: Command<'a>) -> Result<Command<'a>, AllocError>
    ensures { IfOk result (λ r. app_of r ≡ with_subcommand (app_of command.entry) demo_app.top) }
{
    let demo = demo_command(alloc)?;
    command.subcommand(demo)
}

/// The whole command.
#[tactic(auto, unfolding(crate::specs::Words::monitor_app))]
pub fn monitor_command<'a>(alloc: Global) -> Result<Command<'a>, AllocError>
    ensures app { IfOk result (λ r. app_of r ≡ monitor_app) }
{
    let command = with_run(alloc, Command::new(alloc, "monitor"))?;
    let command = with_check(alloc, command)?;
    let command = with_demo(alloc, command)?;
    Ok(strict(command))
}
