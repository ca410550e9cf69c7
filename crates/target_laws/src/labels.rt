//! The labels of functions to which fields lead.

ghost use Rattle.target_laws.specs.Targets.{TargetsAreItems};

use assigned_forms::{expansions_are_exact, weak_aliases_stay};
use flow_graph::{lone_symbol_is_left, targets_are_labels};

/// A field that leads to an item of a function is that of a branch to the place where the item
/// begins.
pub fn targets_are_items()
    ensures { TargetsAreItems }
{
    expansions_are_exact();
    weak_aliases_stay();
    targets_are_labels();
    lone_symbol_is_left();
}
