//! What the monitor evaluates.
ghost use Rattle.std.specs.Prelude.{◌≡◌, ◌++◌, IfOk, IsTrue};
ghost use Rattle.mfotl_model.specs.FreeVariables.{fv};
ghost use Rattle.mfotl_model.specs.Tables.{all_apart};
ghost use Rattle.monitorable.specs.Atoms.{atoms_of};
ghost use Rattle.monitorable.specs.CoreForms.{meaning, node_form};
ghost use Rattle.monitorable.specs.Fragment.{IsMonitorable};
ghost use Rattle.monitorable.specs.Renaming.{binders};

use crate::atoms::atoms_of;
use crate::node::Node;
use mfotl_model::Atom;
use std::alloc::{AllocError, Global};

/// The normal form of a policy's negation. The fragment accepts it, no two of its quantifiers bind the
/// same variable, and none binds a free one. Contracts speak of it through `core_form`.
#[derive(Drop)]
pub struct Core {
    root: Node,
    vars: Vec<u32>,
    atoms: Vec<Atom>,
    ghost has_vars: { vars.items ≡ fv (meaning (node_form root)) },
    ghost has_atoms: { atoms.items ≡ atoms_of (node_form root) },
    pub ghost in_fragment: { IsMonitorable (node_form root) },
    pub ghost is_apart: { IsTrue (all_apart (fv (meaning (node_form root)) ++ binders (node_form root))) },
}

impl Core {
    ghost use Rattle.monitorable.specs.Cores.{core_form};

    pub(crate) fn new(alloc: Global, root: Node) -> Result<Self, AllocError>
        requires in_fragment { IsMonitorable (node_form root) }
        requires is_apart { IsTrue (all_apart (fv (meaning (node_form root)) ++ binders (node_form root))) }
        ensures { IfOk result (λ core. core_form core ≡ node_form root) }
    {
        let (vars, atoms) = listed(alloc, &root)?;
        Ok(Core { root, vars, atoms })
    }

    /// The node that the others stand under.
    pub fn root(&self) -> &Node
        ensures { node_form result.now ≡ core_form self.now }
    {
        &self.root
    }

    /// The free variables by number, each once, in the order in which they first occur.
    pub fn vars(&self) -> &[u32]
        ensures { result.now ≡ fv (meaning (core_form self.now)) }
    {
        &self.vars
    }

    /// The atoms from left to right.
    pub fn atoms(&self) -> &[Atom]
        ensures { result.now ≡ atoms_of (core_form self.now) }
    {
        &self.atoms
    }

    pub fn copy(&self, alloc: Global) -> Result<Self, AllocError>
        ensures { IfOk result (λ core. core_form core ≡ core_form self.now) }
    {
        Core::new(alloc, self.root.copy(alloc)?)
    }
}

// The free variables and the atoms.
fn listed(alloc: Global, node: &Node) -> Result<(Vec<u32>, Vec<Atom>), AllocError>
    ensures vars { IfOk result (λ lists. lists.0.items ≡ fv (meaning (node_form node.now))) }
    ensures atoms { IfOk result (λ lists. lists.1.items ≡ atoms_of (node_form node.now)) }
{
    let vars = node.free_vars(alloc)?;
    Ok((vars, atoms_of(alloc, node)?))
}
