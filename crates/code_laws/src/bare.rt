//! Instructions without operands.

ghost use Rattle.code_laws.specs.Bare.{BareInstructionsAreLaid};

use crate::codes::loaded_codes_stand;
use asm_place::instruction_stands;
use item_readings::instructions_are_covered;
use scfi_laws::nodes_suit_items;
use step_readings::read_bytes_obey;
use x86_lookup::bare_codes_read;

/// An instruction without operands or a prefix is laid as the item of that instruction: whatever is
/// read where it is loaded does what the item may do.
pub fn bare_instructions_are_laid()
    ensures { BareInstructionsAreLaid }
{
    loaded_codes_stand();
    instruction_stands();
    bare_codes_read();
    read_bytes_obey();
    instructions_are_covered();
    nodes_suit_items();
}
