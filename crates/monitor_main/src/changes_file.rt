//! The changes of the strategy, in the file that the words name.
ghost use Rattle.std.specs.Prelude.{◌≡◌, ◌≤◌, ◌∷◌, [], length, IfOk, IfErr, Ok};
ghost use Rattle.std.specs.List.{AllByRecursion};
ghost use Rattle.mon_outside.specs.Files.{ToldFiles, content};
ghost use Rattle.mon_outside.specs.Inputs.{asked_more};
ghost use Rattle.mon_outside.specs.Views.{inputs_view};
ghost use Rattle.monitor_main.specs.CheckedPolicies.{Divides, Gives, IsInside};
ghost use Rattle.command_line.specs.CommandViews.{text_in};
ghost use Rattle.monitor_main.specs.Divisions.{AreChangesAt};
ghost use Rattle.monitor_main.specs.Limits.{max_file};
ghost use Rattle.monitor_main.specs.Loading.{AreRefused, IsRefused};
ghost use Rattle.monitor_main.specs.Tasks.{changes_at, changes_in};
ghost use Rattle.command_line.specs.Words.{name_if_any};

use crate::limits::MAX_FILE;
use crate::refusal::{InputFile, Refusal};
use mfotl_model::Policy;
use mon_outside::{Inputs, LoadFault, load};
use slice_strategy::{Change, read_changes};
use std::alloc::Global;

// The changes of a script that isn't too long, over the policy's free variables.
#[tactic(auto, unfolding(crate::specs::Tasks::changes_in))]
fn short_changes(alloc: Global, bytes: &[u8], policy: &Policy) -> Result<Vec<Change>, Refusal>
    requires { length bytes.now ≤ max_file }
    ensures gives { Gives (λ changes. changes.items) result (changes_in policy.now.vars bytes.now) }
    ensures divides { IfOk result (λ changes.
        AllByRecursion (λ c. Divides policy.now.vars c.strategy) changes.items) }
    ensures inside { IfErr result IsInside }
{
    let changes = read_changes(alloc, bytes, policy)?;
    Ok(changes)
}

/// The changes of a script, over the policy's free variables.
#[tactic(auto, unfolding(crate::specs::Tasks::changes_in))]
pub fn changes_in(alloc: Global, bytes: &[u8], policy: &Policy) -> Result<Vec<Change>, Refusal>
    ensures gives { Gives (λ changes. changes.items) result (changes_in policy.now.vars bytes.now) }
    ensures divides { IfOk result (λ changes.
        AllByRecursion (λ c. Divides policy.now.vars c.strategy) changes.items) }
    ensures inside { IfErr result IsInside }
{
    if bytes.len() as u64 > MAX_FILE {
        return Err(Refusal::LongChanges);
    }
    short_changes(alloc, bytes, policy)
}

// The changes in the file of this name.
#[tactic(auto, unfolding(crate::specs::Tasks::changes_in))]
fn load_script<I: Inputs>(
    alloc: Global,
    inputs: &mut I,
    name: &str,
    policy: &Policy,
) -> Result<Vec<Change>, Refusal>
    ensures files { I.files inputs.new ≡ I.files inputs.old }
    ensures later { I.faults inputs.old ≤ I.faults inputs.new }
    ensures asks { I.asked inputs.new ≡ asked_more (I.asked inputs.old) (name.now ∷ []) }
    ensures ok { IfOk result (λ changes. ToldFiles (I.files inputs.old) (λ files.
        changes_in policy.now.vars (content files name.now) ≡ Ok changes.items)) }
    ensures divides { IfOk result (λ changes.
        AllByRecursion (λ c. Divides policy.now.vars c.strategy) changes.items) }
    ensures refused { IfErr result (IsRefused InputFile.Changes name.now (changes_in policy.now.vars)
        (inputs_view I.Inputs inputs.old) (inputs_view I.Inputs inputs.new)) }
{
    match load(alloc, inputs, name, MAX_FILE) {
        Ok(bytes) => short_changes(alloc, bytes.as_slice(), policy),
        Err(LoadFault::TooLong) => Err(Refusal::LongChanges),
        Err(LoadFault::Failed) => Err(Refusal::Read(InputFile::Changes)),
        Err(LoadFault::Memory) => Err(Refusal::Memory),
    }
}

/// The changes in the file of this name, and none where no file is named.
#[tactic(auto, unfolding(crate::specs::Tasks::changes_at), using(crate::proofs::ToldLemmas::asked_none))]
pub fn load_changes<I: Inputs>(
    alloc: Global,
    inputs: &mut I,
    name: Option<&str>,
    policy: &Policy,
) -> Result<Vec<Change>, Refusal>
    ensures files { I.files inputs.new ≡ I.files inputs.old }
    ensures later { I.faults inputs.old ≤ I.faults inputs.new }
    ensures asks { I.asked inputs.new ≡ asked_more (I.asked inputs.old) (name_if_any (text_in name.entry)) }
    ensures ok { IfOk result (λ changes. ToldFiles (I.files inputs.old) (λ files.
        changes_at policy.now.vars (text_in name.entry) files ≡ Ok changes.items)) }
    ensures are { IfOk result (λ changes.
        AreChangesAt policy.now.vars (text_in name.entry) (I.files inputs.old) changes.items) }
    ensures divides { IfOk result (λ changes.
        AllByRecursion (λ c. Divides policy.now.vars c.strategy) changes.items) }
    ensures refused { IfErr result (AreRefused policy.now.vars (text_in name.entry)
        (inputs_view I.Inputs inputs.old) (inputs_view I.Inputs inputs.new)) }
{
    match name {
        Some(name) => load_script(alloc, inputs, name, policy),
        None => Ok(Vec::new(alloc)),
    }
}
