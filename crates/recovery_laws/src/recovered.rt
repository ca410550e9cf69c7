//! What the frame table in the object of a source means along executions.

ghost use Rattle.recovery_laws.specs.Sources.{ObjectsRecover};

use asm_front::{objects_are_made, written_reads_back};
use asm_functions::{FollowingPlacer, functions_stand_in_order};
use asm_place::{places_stand, placing_within};
use asm_relax::layouts_keep_sections;
use code_laws::relocated_fields_are_held;
use expansion_laws::handed_of_bytes_are_spelled;
use form_laws::tables_add_labels;
use function_laws::{function_tables_recover, functions_are_tabled};
use place_laws::layouts_are_low;
use synthesis_laws::tables_are_of_items;
use target_laws::jump_fields_stand;

/// Where frame tables are worked out, the entry of each function in `.eh_frame` of the object
/// recovers the caller: the row that its bytes give at each place leads to the caller's frame
/// address, return address and saved registers, along each execution in which calls keep the
/// registers, the return address and the slots, and stores whose place is not followed leave these
/// alone. The bytes executed are those of the object but for relocated fields, which may hold
/// anything. At exits the seven registers are as at entry. Code in a section without bytes in the
/// file is left out. Files are bytes: no number in them is 256 or more.
pub fn objects_recover()
    ensures { ObjectsRecover }
{
    objects_are_made();
    written_reads_back();
    placing_within();
    places_stand();
    functions_stand_in_order();
    eh_frame::tables_are_found();
    line_table::tables_are_found();
    tables_add_labels();
    handed_of_bytes_are_spelled::<FollowingPlacer>();
    layouts_keep_sections();
    layouts_are_low();
    jump_fields_stand();
    relocated_fields_are_held();
    tables_are_of_items();
    functions_are_tabled();
    function_tables_recover();
}
