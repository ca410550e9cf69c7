//! Functions that have frame tables, as they are laid.

ghost use Rattle.function_laws.specs.Tabled.{FunctionsAreTabled};

use crate::jumping::function_jumps_are_laid;
use asm_functions::{following_is_placing, items_are_joined};
use asm_place::{labels_change_symbols, places_stand, placing_grows};
use code_laws::{functions_are_laid, insns_are_numbered};
use flow_graph::successors_are_items;

/// A function of a source with its frame table lies in the bytes of its section as a linker leaves
/// it, and the procedure of the table stands with its items in the layout.
pub fn functions_are_tabled()
    ensures { FunctionsAreTabled }
{
    items_are_joined();
    following_is_placing();
    placing_grows();
    places_stand();
    labels_change_symbols();
    functions_are_laid();
    insns_are_numbered();
    function_jumps_are_laid();
    successors_are_items();
}
