//! The numbers that immediates hold.

ghost use Rattle.std.specs.Prelude.{◌≡◌, ◌<◌};
ghost use Rattle.x86_table.specs.Fits.{is_signed};
ghost use Rattle.x86_parts.specs.Codes.{last_of};
ghost use Rattle.x86_parts.specs.Keys.{immediate_length};

use x86_table::Immediate;

/// Whether 32 bits, sign-extended to 64, are the value.
pub fn is_signed_32(value: u64) -> bool
    ensures { result ≡ is_signed 32 64 value }
{
    value < 0x8000_0000 || 0xFFFF_FFFF_8000_0000 <= value
}

/// Whether 8 bits, sign-extended to 64, are the value.
pub fn is_signed_8(value: u64) -> bool
    ensures { result ≡ is_signed 8 64 value }
{
    value < 0x80 || 0xFFFF_FFFF_FFFF_FF80 <= value
}

/// The last number of an immediate.
pub fn last_of(immediate: Immediate) -> u64
    ensures { result ≡ last_of immediate }
{
    match immediate {
        Immediate::Byte | Immediate::Count => 0xFF,
        Immediate::Sext16 | Immediate::Word => 0xFFFF,
        Immediate::Sext32 | Immediate::Long => 0xFFFF_FFFF,
        _ => 0xFFFF_FFFF_FFFF_FFFF,
    }
}

/// The bytes of an immediate or a distance.
pub fn immediate_length(immediate: Immediate) -> u8
    ensures value { result ≡ immediate_length immediate }
    ensures small { result < 9 }
{
    match immediate {
        Immediate::Absent => 0,
        Immediate::Byte | Immediate::Count => 1,
        Immediate::Sext16 | Immediate::Sext32 | Immediate::Sext64 => 1,
        Immediate::Word => 2,
        Immediate::Long | Immediate::LongSext => 4,
        Immediate::Quad => 8,
        Immediate::Rel8 | Immediate::Short => 1,
        Immediate::Rel32 => 4,
    }
}
