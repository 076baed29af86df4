//! The core of a policy.
ghost use Rattle.std.specs.Prelude.{◌≡◌, ◌++◌, IfErr, IfOk, IsTrue, None};
ghost use Rattle.mfotl_model.specs.FreeVariables.{fv};
ghost use Rattle.mfotl_model.specs.Tables.{all_apart};
ghost use Rattle.monitorable.specs.CoreForms.{meaning, node_form};
ghost use Rattle.monitorable.specs.Cores.{core_form, policy_fault, policy_form};
ghost use Rattle.monitorable.specs.Fragment.{IsMonitorable, Names, frag};
ghost use Rattle.monitorable.specs.Judging.{Judges};
ghost use Rattle.monitorable.specs.Negation.{HasConstantsOf, Negates, SettlesWith};
ghost use Rattle.monitorable.specs.NormalForm.{negative};
ghost use Rattle.monitorable.specs.Renaming.{apart_form, binders};
ghost use Rattle.monitorable.specs.SatisfyingRows.{HasViolationsOf};
ghost use Rattle.monitorable.specs.declared.fault.FragmentFault.TheVariants.{Memory};

use crate::apart::apart;
use crate::count::pay_for_negated;
use crate::fault::FragmentFault;
use crate::fragment::judge;
use crate::limits::NODE_LIMIT;
use crate::node::Node;
use crate::normal_form::negated_normal_form;
use crate::policy_core::Core;
use crate::role::Role;
use crate::scope::Scope;
use mfotl_model::Policy;
use std::alloc::Global;

/// The core of a policy, or the first reason why it can't be monitored. TooLarge is found before any
/// other, and without building the normal form.
pub fn to_core(alloc: Global, policy: &Policy) -> Result<Core, FragmentFault>
    ensures judged { Judges result (policy_fault policy.now) }
    ensures core { IfOk result (λ core. core_form core ≡ apart_form (negative (policy_form policy.now))) }
    ensures negates { IfOk result (λ core. Negates (core_form core) (policy_form policy.now)) }
    ensures settles { IfOk result (λ core. SettlesWith (core_form core) (policy_form policy.now)) }
    ensures fits { IfOk result (λ core. IsMonitorable (core_form core)) }
    ensures variables { IfOk result (λ core. fv (meaning (core_form core)) ≡ fv (policy_form policy.now)) }
    ensures constants { IfOk result (λ core. HasConstantsOf (core_form core) (policy_form policy.now)) }
    ensures apart { IfOk result (λ core. IsTrue
        (all_apart (fv (meaning (core_form core)) ++ binders (core_form core)))) }
    ensures violations { IfOk result (λ core.
        HasViolationsOf (core_form core) (policy_form policy.now)) }
{
    let negation = judged_negation(alloc, policy)?;
    core_apart(alloc, &negation)
}

// The normal form of the policy's negation, where the fragment accepts it.
fn judged_negation(alloc: Global, policy: &Policy) -> Result<Node, FragmentFault>
    ensures judged { Judges result (policy_fault policy.now) }
    ensures negation { IfOk result (λ node. node_form node ≡ negative (policy_form policy.now)) }
{
    if pay_for_negated(&policy.formula, Some(NODE_LIMIT)).is_none() {
        return Err(FragmentFault::TooLarge);
    }
    let negation = Box::into_inner(negated_normal_form(alloc, &policy.formula)?);
    let scope = Scope::Free(policy.vars.as_slice());
    judge(alloc, &negation, Role::Whole, &scope)?;
    Ok(negation)
}

// The core that a node which the fragment accepts is with its quantifiers apart.
fn core_apart(alloc: Global, node: &Node) -> Result<Core, FragmentFault>
    requires { (names : Names) × (frag names (node_form node.now) ≡ None) }
    ensures fault { IfErr result (λ fault. fault ≡ Memory) }
    ensures core { IfOk result (λ core. core_form core ≡ apart_form (node_form node.now)) }
{
    Ok(Core::new(alloc, apart(alloc, node)?)?)
}
