//! The strategy that the words give.
ghost use Rattle.std.specs.Prelude.{◌≡◌, length, IfOk, IfErr};
ghost use Rattle.slice_strategy.specs.Entries.{HasWorkers};
ghost use Rattle.monitor_main.specs.Tasks.{strategy_in};
ghost use Rattle.monitor_main.specs.CheckedPolicies.{Gives, IsInside};

use crate::limits::MAX_FILE;
use crate::refusal::Refusal;
use mfotl_model::Policy;
use slice_strategy::Strategy;
use std::alloc::Global;

/// The strategy of this text, over the policy's free variables.
#[tactic(auto, unfolding(crate::specs::Tasks::strategy_in))]
pub fn read_strategy(alloc: Global, text: &str, policy: &Policy) -> Result<Strategy, Refusal>
    ensures gives { Gives (λ strategy. strategy) result (strategy_in policy.now.vars text.now) }
    ensures inside { IfErr result IsInside }
    ensures sized { IfOk result (λ strategy. length strategy ≡ length policy.now.vars) }
    ensures workers { IfOk result HasWorkers }
{
    if text.len() as u64 > MAX_FILE {
        return Err(Refusal::LongStrategy);
    }
    let strategy = Strategy::read(alloc, text.as_bytes(), policy)?;
    Ok(strategy)
}
