//! Registers of frame tables by their names and numbers (psABI for AMD64, "DWARF Register Number Mapping").

ghost use Rattle.std.specs.Prelude.{◌≡◌};
ghost use Rattle.asm_frames.specs.Registers as spec;

use att_operands::NamedRegister;
use cfi_directives::DwarfRegister;
use x86_insn::{Class, Reg};

/// The DWARF numbers of rax, rcx, rdx, rbx, rsp, rbp, rsi and rdi.
const FIRST_NUMBERS: [u8; 8] = [0, 2, 1, 3, 7, 6, 4, 5];

/// The DWARF number of a general register, by its number in instructions.
fn general_number(number: u8) -> u8
    ensures { result ≡ spec.general_number number }
{
    match FIRST_NUMBERS.get(usize::from(number)) {
        Some(own) => *own,
        None => number,
    }
}

/// The DWARF number of what a name names.
pub(crate) fn number_of(named: NamedRegister) -> Option<u64>
    ensures { result ≡ spec.number_of named }
{
    match named {
        NamedRegister::Plain(
            Reg {
                class: Class::Quad,
                number,
            },
        ) => Some(u64::from(general_number(number))),
        NamedRegister::Rip => Some(16),
        _ => None,
    }
}

/// The register of this number, which has to be below 64.
pub(crate) fn register_numbered(number: u64) -> Option<DwarfRegister>
    ensures { result ≡ spec.register_numbered number }
{
    DwarfRegister::new(number)
}
