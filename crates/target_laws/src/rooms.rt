//! Room in direct jumps, and what is said of targets.

ghost use Rattle.target_laws.specs.Rooms.{BranchesAreSaid, JumpFieldsStand, JumpsHaveRoom};

use asm_expr::whole_stretches_cancel;
use asm_relax::{layouts_keep_sections, settled_items_have_room};
use elf_object::fields_have_one_relocation;
use place_laws::layouts_are_low;

/// The field of a direct jump stands in its item in a layout, where it holds a target.
pub fn jump_fields_stand()
    ensures { JumpFieldsStand }
{}

/// The item of a direct jump has room for what its field holds.
pub fn jumps_have_room()
    ensures { JumpsHaveRoom }
{
    layouts_are_low();
    layouts_keep_sections();
    settled_items_have_room();
}

/// Of the target of a branch in an object `@PLT` is said, or nothing is.
pub fn branches_are_said()
    ensures { BranchesAreSaid }
{
    layouts_keep_sections();
    whole_stretches_cancel();
    fields_have_one_relocation();
}
