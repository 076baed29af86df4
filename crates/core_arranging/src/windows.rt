//! Windows in a core.
ghost use Rattle.std.specs.Prelude.{◌≡◌, IsTrue};
ghost use Rattle.std.specs.List.{list_any};
ghost use Rattle.mfotl_model.specs.FreeVariables.{among};
ghost use Rattle.monitorable.specs.CoreForms.{node_form};
ghost use Rattle.core_arranging.specs.Windows.{is_window, left_operand, unnegated};

use mfotl_model::is_among;
use monitorable::Node as Core;

/// A core without its NOT: of a window that is asked for rows, the window.
pub fn without_not(core: &Core) -> &Core
    ensures exact { node_form result.now ≡ unnegated (node_form core.now) }
    ensures window { is_window (node_form result.now) ≡ is_window (left_operand (node_form core.now)) }
    ensures operand { IsTrue (is_window (left_operand (node_form core.now)))
        → node_form result.now ≡ left_operand (node_form core.now) }
{
    match core {
        Core::Not(inner) => inner,
        _ => core,
    }
}

/// Whether a core is a window.
pub fn is_window(core: &Core) -> bool
    ensures { result ≡ is_window (node_form core.now) }
{
    match core {
        Core::Since(_, _, _) => true,
        Core::Until(_, _, _) => true,
        _ => false,
    }
}

/// Whether one of the wanted is among the columns.
pub fn some_among(wanted: &[u32], columns: &[u32]) -> bool
    ensures { result ≡ list_any (λ x. among x columns.now) wanted.now }
{
    wanted.iter().any(|x| is_among(*x, columns))
}
