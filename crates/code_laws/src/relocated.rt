//! Fields in items that a linker fills in.

ghost use Rattle.code_laws.specs.Relocated.{RelocatedFieldsAreHeld};

use asm_relax::{layouts_keep_sections, settled_items_have_room};
use loaded_laws::{layouts_keep_counts, values_are_alone};

/// An item of a layout that holds a field with a relocation has the bytes of the field, where the
/// fields of direct jumps stand in the sections.
pub fn relocated_fields_are_held()
    ensures { RelocatedFieldsAreHeld }
{
    layouts_keep_sections();
    layouts_keep_counts();
    values_are_alone();
    settled_items_have_room();
}
