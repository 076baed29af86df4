//! `check`: whether a policy can be monitored, and its free variables.
ghost use Rattle.std.specs.Prelude.{◌≡◌, ◌≤◌, ◌++◌, IfOk, IfErr, OnOk, Ok};
ghost use Rattle.mon_outside.specs.Sink.{Appends, AppendsFront};
ghost use Rattle.monitor_main.specs.Answer.{check_answer};
ghost use Rattle.monitor_main.specs.CheckLine.{column, columns, monitorable_line, more_columns};
ghost use Rattle.monitor_main.specs.CheckLine.{sort_name};
ghost use Rattle.monitor_main.specs.CheckedPolicies.{checked_in};
ghost use Rattle.monitor_main.specs.Decisions.{Finishes};
ghost use Rattle.monitor_main.specs.LogRuns.{IsOutputFault};

use crate::checked_policy::CheckedPolicy;
use crate::line::write_line;
use crate::refusal::Refusal;
use mfotl_model::{Sort, Var};
use mon_outside::Sink;
use std::alloc::{AllocError, Global};

fn sort_name(sort: Sort) -> &'static [u8]
    ensures { result.now ≡ sort_name sort }
{
    match sort {
        Sort::Int => b"int",
        Sort::Text => b"string",
    }
}

// Puts a variable and its sort behind a line.
fn put_column(line: &mut Vec<u8>, var: &Var) -> Result<(), AllocError>
    ensures { OnOk result (line.new.items ≡ line.old.items ++ column var.now) }
{
    line.extend_from_slice(var.name.as_bytes())?;
    line.extend_from_slice(b":")?;
    line.extend_from_slice(sort_name(var.sort))?;
    Ok(())
}

// Puts variables behind a line, with a comma before each.
fn put_more_columns(line: &mut Vec<u8>, vars: &[Var]) -> Result<(), AllocError>
    ensures { OnOk result (line.new.items ≡ line.old.items ++ more_columns vars.now) }
{
    for var in vars {
        line.extend_from_slice(b",")?;
        put_column(line, var)?;
    }
    Ok(())
}

// Puts variables behind a line, with a comma between any two.
fn put_columns(line: &mut Vec<u8>, vars: &[Var]) -> Result<(), AllocError>
    ensures { OnOk result (line.new.items ≡ line.old.items ++ columns vars.now) }
{
    match vars.split_first() {
        Some((first, more)) => {
            put_column(line, first)?;
            put_more_columns(line, more)
        }
        None => Ok(()),
    }
}

// The line for a policy of these free variables.
#[tactic(auto, unfolding(crate::specs::CheckLine::monitorable_line))]
fn monitorable_line(alloc: Global, vars: &[Var]) -> Result<Vec<u8>, AllocError>
    ensures { IfOk result (λ line. line.items ≡ monitorable_line vars.now) }
{
    let mut line = Vec::new(alloc);
    line.extend_from_slice(b"monitorable (")?;
    put_columns(&mut line, vars)?;
    line.extend_from_slice(b")\n")?;
    Ok(line)
}

// Writes the line for a policy of these free variables.
fn write_columns<O: Sink>(alloc: Global, vars: &[Var], out: &mut O) -> Result<(), Refusal>
    ensures ok { IfOk result (λ _. Appends (O.written out.old) (O.written out.new)
        (monitorable_line vars.now)) }
    ensures fault { IfErr result (λ r.
        IsOutputFault r (O.faults out.old) (O.faults out.new)) }
    ensures front { AppendsFront (O.written out.old) (O.written out.new)
        (monitorable_line vars.now) }
    ensures later { O.faults out.old ≤ O.faults out.new }
{
    let line = monitorable_line(alloc, vars)?;
    write_line(line.as_slice(), out)
}

/// Tells the free variables of the policy. No line has a row.
pub fn tell_columns<O: Sink>(
    alloc: Global,
    checked: &CheckedPolicy,
    out: &mut O,
) -> Result<bool, Refusal>
    ensures ok { IfOk result (Finishes (check_answer (Ok (checked_in checked.now)))
        (O.written out.old) (O.written out.new)) }
    ensures fault { IfErr result (λ r.
        IsOutputFault r (O.faults out.old) (O.faults out.new)) }
    ensures front { AppendsFront (O.written out.old) (O.written out.new)
        (check_answer (Ok (checked_in checked.now))).out }
    ensures later { O.faults out.old ≤ O.faults out.new }
{
    write_columns(alloc, checked.policy.vars.as_slice(), out)?;
    Ok(false)
}
