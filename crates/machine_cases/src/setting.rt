//! What the texts of a case say.
ghost use Rattle.std.specs.Prelude.{◌≡◌, IfOk, length};
ghost use Rattle.std.specs.List.{range_with_len};
ghost use Rattle.mfotl_model.specs.FreeVariables.{fv};
ghost use Rattle.mfotl_model.specs.Formulas.{form};
ghost use Rattle.mfotl_parse.specs.WellSorted.{IsWellSorted};
ghost use Rattle.monitorable.specs.Cores.{core_form};
ghost use Rattle.monitorable.specs.CoreForms.{meaning};
ghost use Rattle.rescale_worker.specs.Workers.{IsFor};

use crate::texts::Stop;
use log_reader::{Limits, LogReader, Next};
use mfotl_model::{Policy, TimePoint};
use mfotl_parse::read_policy;
use mfotl_sig::{Signature, read_signature};
use monitorable::{Core, to_core};
use slice_strategy::Strategy;
use std::alloc::Global;

/// A signature, and a policy that can be monitored, with its core.
#[derive(Drop)]
pub struct Setting {
    pub signature: Signature,
    pub policy: Policy,
    pub core: Core,
    ghost variables: { fv (meaning (core_form core)) ≡ range_with_len 0 (length policy.vars) },
}

/// What the texts of a signature and of a policy say, or the first fault.
pub fn setting_of(alloc: Global, signature: &str, policy: &str) -> Result<Setting, Stop> {
    let signature = signature_of(alloc, signature)?;
    let (policy, core) = policy_of(alloc, policy, &signature)?;
    Ok(Setting {
        signature,
        policy,
        core,
    })
}

fn signature_of(alloc: Global, text: &str) -> Result<Signature, Stop> {
    match read_signature(alloc, text.as_bytes()) {
        Ok(signature) => Ok(signature),
        Err(fault) => Err(Stop::Told(fault.to_string(alloc)?)),
    }
}

// The policy of a text over a signature, with its core.
#[tactic(auto, using(crate::proofs::SettingLemmas::columns))]
fn policy_of(alloc: Global, text: &str, signature: &Signature) -> Result<(Policy, Core), Stop>
    ensures variables { IfOk result (λ parts.
        fv (meaning (core_form parts.1)) ≡ range_with_len 0 (length parts.0.vars)) }
{
    let policy = policy_over(alloc, text, signature)?;
    let core = core_of(alloc, &policy)?;
    Ok((policy, core))
}

fn policy_over(alloc: Global, text: &str, signature: &Signature) -> Result<Policy, Stop>
    ensures columns { IfOk result (λ policy. IsWellSorted signature.now policy.vars (form policy.formula)) }
{
    match read_policy(alloc, text.as_bytes(), signature) {
        Ok(policy) => Ok(policy),
        Err(fault) => Err(Stop::Told(fault.to_string(alloc)?)),
    }
}

fn core_of(alloc: Global, policy: &Policy) -> Result<Core, Stop>
    ensures variables { IfOk result (λ core. fv (meaning (core_form core)) ≡ fv (form policy.now.formula)) }
{
    match to_core(alloc, policy) {
        Ok(core) => Ok(core),
        Err(fault) => Err(Stop::Told(fault.to_string(alloc)?)),
    }
}

impl Setting {
    /// The strategy of a text over the policy's free variables, or its fault.
    #[tactic(auto, using(crate::proofs::SettingLemmas::strategy_fits))]
    pub fn strategy(&self, alloc: Global, text: &str) -> Result<Strategy, Stop>
        ensures fits { IfOk result (λ strategy. IsFor (core_form self.now.core) strategy) }
        ensures sized { IfOk result (λ strategy. length strategy ≡ length self.now.policy.vars) }
    {
        match Strategy::read(alloc, text.as_bytes(), &self.policy) {
            Ok(strategy) => Ok(strategy),
            Err(fault) => Err(Stop::Told(fault.to_string(alloc)?)),
        }
    }

    /// The one time-point of a log, or the log's fault.
    pub fn point(&self, alloc: Global, text: &str) -> Result<TimePoint, Stop> {
        let bytes = Vec::from_slice(alloc, text.as_bytes())?;
        let mut reader = LogReader::new(alloc, &self.signature, Limits::standard());
        reader.feed_owned(alloc, bytes);
        reader.finish();
        only_point(alloc, &mut reader)
    }
}

// The one time-point that there is.
fn only_point(alloc: Global, reader: &mut LogReader<'_>) -> Result<TimePoint, Stop> {
    match next_point(alloc, reader)? {
        Some(point) => last_point(alloc, reader, point),
        None => Err(Stop::Malformed),
    }
}

// The time-point, where there is no other behind it.
fn last_point(
    alloc: Global,
    reader: &mut LogReader<'_>,
    point: TimePoint,
) -> Result<TimePoint, Stop> {
    match next_point(alloc, reader)? {
        None => Ok(point),
        Some(_) => Err(Stop::Malformed),
    }
}

// The next time-point, if there is one more.
fn next_point(alloc: Global, reader: &mut LogReader<'_>) -> Result<Option<TimePoint>, Stop> {
    if reader.is_broken() {
        return Err(Stop::Malformed);
    }
    match reader.next(alloc) {
        Ok(Next::Point(point)) => Ok(Some(point)),
        Ok(_) => Ok(None),
        Err(fault) => Err(Stop::Told(fault.to_string(alloc)?)),
    }
}
