//! What is monitored: a policy, and how the work on it is divided among workers and threads.
ghost use Rattle.std.specs.Prelude.{◌≡◌, Err};

use crate::checked_policy::CheckedPolicy;
use crate::division::Division;
use crate::refusal::Refusal;
use mfotl_sig::Signature;
use slice_strategy::{Change, Strategy};
use worker_pool::Plan;

/// A policy that can be monitored, how the work on it is divided among workers, at first and by which changes, and how
/// many threads serve these.
#[derive(Drop)]
pub struct Task {
    pub checked: CheckedPolicy,
    pub first: Strategy,
    pub changes: Vec<Change>,
    pub threads: u32,
}

impl Task {
    /// The task of a policy, the work on which is divided so, among so many threads.
    pub fn new(checked: CheckedPolicy, division: Division, threads: u32) -> Task
        ensures checked { result.checked ≡ checked }
        ensures first { result.first ≡ division.first }
        ensures changes { result.changes ≡ division.changes }
        ensures threads { result.threads ≡ threads }
    {
        let Division { first, changes } = division;
        Task {
            checked,
            first,
            changes,
            threads,
        }
    }

    /// No task, since the division of the work on this policy is refused.
    pub fn refused(checked: CheckedPolicy, refusal: Refusal) -> Result<Task, Refusal>
        ensures { result ≡ Err refusal }
    {
        drop(checked);
        Err(refusal)
    }

    /// What a log is read with, and what is done with it.
    pub fn into_parts(self) -> (Signature, Plan)
        ensures sig { result.0 ≡ self.checked.sig }
        ensures core { result.1.core ≡ self.checked.core }
        ensures first { result.1.first ≡ self.first }
        ensures changes { result.1.changes ≡ self.changes }
    {
        let Task {
            checked,
            first,
            changes,
            threads: _,
        } = self;
        let (sig, core) = checked.into_parts();
        let plan = Plan {
            core,
            first,
            changes,
        };
        (sig, plan)
    }
}
