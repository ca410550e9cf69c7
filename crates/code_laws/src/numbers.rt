//! Numbers that are known in instructions.

ghost use Rattle.code_laws.specs.Numbers.{NumbersAreKnown};

use asm_functions::following_is_placing;
use asm_place::statements_split;
use form_laws::{numbers_fit, values_fit};

/// A number that is known in an instruction of a source has 64 bits, where tokens are spelled in
/// bytes.
pub fn insns_are_numbered()
    ensures { NumbersAreKnown }
{
    following_is_placing();
    statements_split();
    numbers_fit();
    values_fit();
}
