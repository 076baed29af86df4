//! Cases of the fragment.

use crate::readers::policy_of;
use crate::stop::Stop;
use crate::texts::halves;
use mfotl_model::Policy;
use monitorable::{Core, to_core};
use std::alloc::Global;

/// The free variables of a policy's core and how many atoms it has, or why the policy has none.
pub fn core(alloc: Global, case: &str) -> Result<String, Stop> {
    let (signature, text) = halves(case)?;
    let policy = policy_of(alloc, signature, text)?;
    core_of(alloc, &policy)
}

fn core_of(alloc: Global, policy: &Policy) -> Result<String, Stop> {
    match to_core(alloc, policy) {
        Ok(core) => copied(alloc, &core),
        Err(fault) => Ok(fault.to_string(alloc)?),
    }
}

fn copied(alloc: Global, core: &Core) -> Result<String, Stop> {
    let copy = core.copy(alloc)?;
    described(alloc, &copy)
}

fn described(alloc: Global, core: &Core) -> Result<String, Stop> {
    let atoms = core.atoms().len();
    Ok(format!(in alloc; "monitorable {:?}, atoms: {atoms}", core.vars())?)
}
