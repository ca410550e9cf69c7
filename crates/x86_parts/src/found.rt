//! A row that takes an instruction.

ghost use Rattle.std.specs.Prelude.{◌≡◌};
ghost use Rattle.x86_parts.specs.Keys.{is_reached};

use x86_table::Parts;

/// A row by its index, with the fields of the instruction in it and the number of their bytes.
#[derive(Clone, Copy)]
pub struct Found {
    pub row: usize,
    pub length: u8,
    pub parts: Parts,
}

/// Whether what was found is no longer than this.
pub fn is_reached(found: &Option<Found>, length: u8) -> bool
    ensures { result ≡ is_reached found.now length }
{
    match found {
        None => false,
        Some(old) => old.length <= length,
    }
}
