//! Statements that put jumps.

ghost use Rattle.code_laws.specs.Jumps.{JumpsAreWritten};

use crate::instructions::bare_instructions_are_seen;
use asm_place::encoding_stands;

/// A statement that puts an item from which control goes by a direct jump is an instruction with
/// operands in the section of the item, which shows what is seen of the instruction.
pub fn jumps_are_written()
    ensures { JumpsAreWritten }
{
    bare_instructions_are_seen();
    encoding_stands();
}
