//! The seven registers whose distances from the frame address are followed, and their numbers.

ghost use Rattle.std.specs.Prelude.{◌≡◌, ◌≤◌};
ghost use Rattle.insn_effects.specs.Seven.{number_of, kept_number, bit_of, bit_if};

/// The seven, by their numbers in the processor: rsp, and the six callee-saved ones, in the order
/// of their numbers in DWARF (rbx, rbp, r12 to r15).
pub static SEVEN: [u8; 7] = [4, 3, 5, 12, 13, 14, 15];

/// The number of none of the seven.
pub const NONE: u8 = 7;

/// The number among the seven of a general-purpose register.
pub fn number_of(register: u8) -> u8
    ensures { result ≡ number_of register }
{
    match register {
        4 => 0,
        3 => 1,
        5 => 2,
        12 => 3,
        13 => 4,
        14 => 5,
        15 => 6,
        _ => NONE,
    }
}

/// The same, where it is callee-saved; rsp counts as none.
pub fn kept(number: u8) -> u8
    ensures { result ≡ kept_number number }
{
    if number == 0 { NONE } else { number }
}

/// A register of the seven by a bit.
pub fn bit_of(number: u8) -> u8
    ensures { result ≡ bit_of number }
{
    match number {
        0 => 1,
        1 => 2,
        2 => 4,
        3 => 8,
        4 => 16,
        5 => 32,
        6 => 64,
        _ => 0,
    }
}

/// The bit, where this holds.
pub fn bit_if(holds: bool, bit: u8) -> u8
    ensures value { result ≡ bit_if holds bit }
    ensures small { result ≤ bit }
{
    if holds { bit } else { 0 }
}
