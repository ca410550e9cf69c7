//! The seven registers by other names and numbers.

ghost use Rattle.std.specs.Prelude.{◌≡◌, ◌<◌};
ghost use Rattle.scfi_pass.specs.Registers as spec;

use asm_base::SavedRegister;

/// A callee-saved register by its number among the seven, of which rsp is 0.
pub fn saved_register(number: u8) -> SavedRegister
    requires some { 0 < number }
    requires known { number < 7 }
    ensures { spec.number_of result ≡ number }
{
    match number {
        1 => SavedRegister::Rbx,
        2 => SavedRegister::Rbp,
        3 => SavedRegister::R12,
        4 => SavedRegister::R13,
        5 => SavedRegister::R14,
        _ => SavedRegister::R15,
    }
}

/// The number in DWARF of one of the seven.
pub(crate) fn dwarf_number(number: u8) -> u8
    ensures { result ≡ spec.dwarf_number number }
{
    match number {
        0 => 7,
        1 => 3,
        2 => 6,
        3 => 12,
        4 => 13,
        5 => 14,
        6 => 15,
        _ => 0,
    }
}
