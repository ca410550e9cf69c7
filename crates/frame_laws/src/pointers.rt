//! What the linker fills in for pointers to one symbol.

ghost use Rattle.frame_laws.specs.NamedSymbols.{SymbolsAreNamed};

use piece_laws::distances_are_held;

/// The field of a pointer to one symbol and a number is of that symbol, less the field's own place exactly where the
/// pointer's encoding counts from there; so the relocation of a field that the linker fills is R_X86_64_PC64 or R_X86_64_PC32
/// there, and else R_X86_64_64 or R_X86_64_32.
pub fn symbols_are_named()
    ensures { SymbolsAreNamed }
{
    distances_are_held();
}
