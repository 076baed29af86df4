//! The signature and the policy, in this order, and the policy's core.
ghost use Rattle.std.specs.Prelude.{◌≡◌, ◌≤◌, ◌∷◌, [], length, IfOk, IfErr, Ok};
ghost use Rattle.mon_outside.specs.Files.{ToldFiles, content};
ghost use Rattle.mon_outside.specs.Inputs.{asked_more};
ghost use Rattle.mon_outside.specs.Views.{inputs_view};
ghost use Rattle.monitorable.specs.Cores.{core_form};
ghost use Rattle.monitor_main.specs.Tasks.{checked_over, policy_of_texts, signature_of};
ghost use Rattle.monitor_main.specs.CheckedPolicies.{Gives, HasVariables, IsInside, checked_in};
ghost use Rattle.lone_worker.specs.Policies.{IsCoreOf};
ghost use Rattle.command_line.specs.CommandViews.{sources_in};
ghost use Rattle.monitor_main.specs.Limits.{max_file};
ghost use Rattle.monitor_main.specs.Loading.{IsRefused, LoadsSources, StopsInSources};

use crate::limits::MAX_FILE;
use crate::refusal::{InputFile, Refusal};
use command_line::Sources;
use mfotl_model::Policy;
use mfotl_parse::read_policy;
use mfotl_sig::{Signature, read_signature};
use mon_outside::{Inputs, LoadFault, load};
use monitorable::{Core, to_core};
use std::alloc::Global;

/// A policy that can be monitored, over its signature.
#[derive(Drop)]
pub struct CheckedPolicy {
    pub sig: Signature,
    pub policy: Policy,
    pub core: Core,
}

impl CheckedPolicy {
    /// What a log is monitored with.
    pub fn into_parts(self) -> (Signature, Core)
        ensures { result ≡ (self.sig, self.core) }
    {
        let CheckedPolicy { sig, policy, core } = self;
        drop(policy);
        (sig, core)
    }
}

// The signature in a file that isn't too long.
#[tactic(auto, unfolding(crate::specs::Tasks::signature_of))]
fn short_signature(alloc: Global, bytes: &[u8]) -> Result<Signature, Refusal>
    requires { length bytes.now ≤ max_file }
    ensures gives { Gives (λ sig. sig) result (signature_of bytes.now) }
    ensures inside { IfErr result IsInside }
{
    Ok(read_signature(alloc, bytes)?)
}

// The policy in a file that isn't too long, with its core.
#[tactic(auto, unfolding(crate::specs::Tasks::policy_in, crate::specs::Tasks::checked_over))]
fn check(alloc: Global, sig: Signature, bytes: &[u8]) -> Result<CheckedPolicy, Refusal>
    requires { length bytes.now ≤ max_file }
    ensures gives { Gives checked_in result (checked_over sig bytes.now) }
    ensures core { IfOk result (λ checked. IsCoreOf (core_form checked.core)
        (checked_in checked).policy.formula) }
    ensures variables { IfOk result (λ checked.
        HasVariables checked.policy.vars (core_form checked.core)) }
    ensures inside { IfErr result IsInside }
{
    let policy = read_policy(alloc, bytes, &sig)?;
    let core = to_core(alloc, &policy)?;
    Ok(CheckedPolicy { sig, policy, core })
}

// The signature of a text.
#[tactic(auto, unfolding(crate::specs::Tasks::signature_of))]
fn signature_of(alloc: Global, bytes: &[u8]) -> Result<Signature, Refusal>
    ensures gives { Gives (λ sig. sig) result (signature_of bytes.now) }
    ensures inside { IfErr result IsInside }
{
    if bytes.len() as u64 > MAX_FILE {
        return Err(Refusal::LongSignature);
    }
    short_signature(alloc, bytes)
}

// The policy of a text.
#[tactic(auto, unfolding(crate::specs::Tasks::policy_in, crate::specs::Tasks::checked_over))]
fn check_text(alloc: Global, sig: Signature, bytes: &[u8]) -> Result<CheckedPolicy, Refusal>
    ensures gives { Gives checked_in result (checked_over sig bytes.now) }
    ensures core { IfOk result (λ checked. IsCoreOf (core_form checked.core)
        (checked_in checked).policy.formula) }
    ensures variables { IfOk result (λ checked.
        HasVariables checked.policy.vars (core_form checked.core)) }
    ensures inside { IfErr result IsInside }
{
    if bytes.len() as u64 > MAX_FILE {
        return Err(Refusal::LongPolicy);
    }
    check(alloc, sig, bytes)
}

/// The signature and the policy of these texts.
pub fn check_texts(alloc: Global, sig: &[u8], policy: &[u8]) -> Result<CheckedPolicy, Refusal>
    ensures gives { Gives checked_in result (policy_of_texts sig.now policy.now) }
    ensures core { IfOk result (λ checked. IsCoreOf (core_form checked.core)
        (checked_in checked).policy.formula) }
    ensures variables { IfOk result (λ checked.
        HasVariables checked.policy.vars (core_form checked.core)) }
    ensures inside { IfErr result IsInside }
{
    let sig = signature_of(alloc, sig)?;
    check_text(alloc, sig, policy)
}

// The signature in the file of this name.
#[tactic(auto, unfolding(crate::specs::Tasks::signature_of))]
fn load_signature<I: Inputs>(
    alloc: Global,
    inputs: &mut I,
    name: &str,
) -> Result<Signature, Refusal>
    ensures files { I.files inputs.new ≡ I.files inputs.old }
    ensures later { I.faults inputs.old ≤ I.faults inputs.new }
    ensures asks { I.asked inputs.new ≡ asked_more (I.asked inputs.old) (name.now ∷ []) }
    ensures ok { IfOk result (λ sig. ToldFiles (I.files inputs.old) (λ files.
        signature_of (content files name.now) ≡ Ok sig)) }
    ensures refused { IfErr result (IsRefused InputFile.Signature name.now signature_of
        (inputs_view I.Inputs inputs.old) (inputs_view I.Inputs inputs.new)) }
{
    match load(alloc, inputs, name, MAX_FILE) {
        Ok(bytes) => short_signature(alloc, bytes.as_slice()),
        Err(LoadFault::TooLong) => Err(Refusal::LongSignature),
        Err(LoadFault::Failed) => Err(Refusal::Read(InputFile::Signature)),
        Err(LoadFault::Memory) => Err(Refusal::Memory),
    }
}

// The policy in the file of this name.
#[tactic(auto, unfolding(crate::specs::Tasks::policy_in, crate::specs::Tasks::checked_over))]
fn load_policy<I: Inputs>(
    alloc: Global,
    inputs: &mut I,
    name: &str,
    sig: Signature,
) -> Result<CheckedPolicy, Refusal>
    ensures files { I.files inputs.new ≡ I.files inputs.old }
    ensures later { I.faults inputs.old ≤ I.faults inputs.new }
    ensures asks { I.asked inputs.new ≡ asked_more (I.asked inputs.old) (name.now ∷ []) }
    ensures ok { IfOk result (λ checked. ToldFiles (I.files inputs.old) (λ files.
        checked_over sig (content files name.now) ≡ Ok (checked_in checked))) }
    ensures core { IfOk result (λ checked. IsCoreOf (core_form checked.core)
        (checked_in checked).policy.formula) }
    ensures variables { IfOk result (λ checked.
        HasVariables checked.policy.vars (core_form checked.core)) }
    ensures refused { IfErr result (IsRefused InputFile.Policy name.now (checked_over sig)
        (inputs_view I.Inputs inputs.old) (inputs_view I.Inputs inputs.new)) }
{
    match load(alloc, inputs, name, MAX_FILE) {
        Ok(bytes) => check(alloc, sig, bytes.as_slice()),
        Err(LoadFault::TooLong) => Err(Refusal::LongPolicy),
        Err(LoadFault::Failed) => Err(Refusal::Read(InputFile::Policy)),
        Err(LoadFault::Memory) => Err(Refusal::Memory),
    }
}

/// The signature and the policy in the files of these names.
pub fn load_sources<I: Inputs>(
    alloc: Global,
    sources: &Sources<'_>,
    inputs: &mut I,
) -> Result<CheckedPolicy, Refusal>
    ensures files { I.files inputs.new ≡ I.files inputs.old }
    ensures later { I.faults inputs.old ≤ I.faults inputs.new }
    ensures ok { IfOk result (λ checked. LoadsSources (sources_in sources.now) (checked_in checked)
        (inputs_view I.Inputs inputs.old) (inputs_view I.Inputs inputs.new)) }
    ensures core { IfOk result (λ checked. IsCoreOf (core_form checked.core)
        (checked_in checked).policy.formula) }
    ensures variables { IfOk result (λ checked.
        HasVariables checked.policy.vars (core_form checked.core)) }
    ensures refused { IfErr result (StopsInSources (sources_in sources.now)
        (inputs_view I.Inputs inputs.old) (inputs_view I.Inputs inputs.new)) }
{
    let sig = load_signature(alloc, inputs, sources.sig)?;
    load_policy(alloc, inputs, sources.policy, sig)
}
