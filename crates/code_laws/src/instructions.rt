//! Instructions of any kind.

ghost use Rattle.code_laws.specs.Instructions.{BareInstructionsAreSeen, EncodingsAreSeen, InstructionsAreLaid};

use crate::bare::bare_instructions_are_laid;
use crate::codes::encodings_are_laid;
use asm_place::{encoding_stands, jumps_are_put};
use x86_lookup::bare_codes_read;

/// What is seen of an instruction whose mnemonic alone has bytes is what these read as.
pub fn bare_instructions_are_seen()
    ensures { BareInstructionsAreSeen }
{
    bare_codes_read();
}

/// What is seen of any other instruction has the values of its forms.
pub fn encodings_are_seen()
    ensures { EncodingsAreSeen }
{}

/// Each instruction that is no direct jump is laid as the item of what is seen of it: whatever is
/// read where it is loaded does what the item may do.
pub fn instructions_are_laid()
    ensures { InstructionsAreLaid }
{
    bare_instructions_are_seen();
    bare_instructions_are_laid();
    encodings_are_laid();
    encoding_stands();
    jumps_are_put();
}
