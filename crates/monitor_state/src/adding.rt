//! Lists of nodes grow.
ghost use Rattle.std.specs.Prelude.{◌≡◌, ◌++◌, ◌∷◌, [], OnOk};

use monitor_nodes::Node;
use std::alloc::AllocError;

/// Adds a node behind the others.
#[inline(never)]
pub fn add(node: Node, nodes: &mut Vec<Node>) -> Result<(), AllocError>
    ensures { OnOk result (nodes.new.items ≡ nodes.old.items ++ node ∷ []) }
{
    Ok(nodes.push(node)?)
}
