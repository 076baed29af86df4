//! The atoms of a core.
ghost use Rattle.std.specs.Prelude.{◌≡◌, ◌++◌, ◌∷◌, [], IfOk, OnOk};
ghost use Rattle.monitorable.specs.Atoms.{atoms_of};
ghost use Rattle.monitorable.specs.CoreForms.{node_form};

use crate::node::Node;
use mfotl_model::Atom;
use std::alloc::{AllocError, Global};

/// The atoms from left to right.
pub fn atoms_of(alloc: Global, node: &Node) -> Result<Vec<Atom>, AllocError>
    ensures { IfOk result (λ atoms. atoms.items ≡ atoms_of (node_form node.now)) }
{
    let mut atoms = Vec::new(alloc);
    add_atoms(alloc, node, &mut atoms)?;
    Ok(atoms)
}

#[tactic(auto, unfolding(crate::specs::Atoms::atoms_of))]
fn add_atoms(alloc: Global, node: &Node, atoms: &mut Vec<Atom>) -> Result<(), AllocError>
    ensures { OnOk result (atoms.new.items ≡ atoms.old.items ++ atoms_of (node_form node.now)) }
{
    match node {
        Node::True | Node::False | Node::Compare(_) => Ok(()),
        Node::Atom(atom) => add_copy(alloc, atom, atoms),
        Node::Not(inner)
        | Node::Exists(_, inner)
        | Node::Previous(_, inner)
        | Node::Next(_, inner) => add_atoms(alloc, inner, atoms),
        Node::And(left, right)
        | Node::Or(left, right)
        | Node::Since(_, left, right)
        | Node::Until(_, left, right) => {
            add_atoms(alloc, left, atoms)?;
            add_atoms(alloc, right, atoms)
        }
    }
}

fn add_copy(alloc: Global, atom: &Atom, atoms: &mut Vec<Atom>) -> Result<(), AllocError>
    ensures { OnOk result (atoms.new.items ≡ atoms.old.items ++ atom.now ∷ []) }
{
    Ok(atoms.push(atom.copy(alloc)?)?)
}
