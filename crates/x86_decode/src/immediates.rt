//! The immediate of a row.

ghost use Rattle.std.specs.Prelude.{◌≡◌};
ghost use Rattle.x86_decode.specs.Immediates as spec;

use crate::places::{byte_displaced, long_displaced, long_held};
use x86_table::Immediate;

/// The byte in front.
fn byte_held(bytes: &[u8]) -> u64
    ensures { result ≡ spec.byte_held bytes.now }
{
    match bytes {
        [b, ..] => u64::from(*b),
        [] => 0,
    }
}

/// Two bytes.
fn word_held(bytes: &[u8]) -> u64
    ensures { result ≡ spec.word_held bytes.now }
{
    match bytes {
        [a, b, ..] => u64::from(u16::from_le_bytes([*a, *b])),
        _ => 0,
    }
}

/// Eight bytes.
fn quad_held(bytes: &[u8]) -> u64
    ensures { result ≡ spec.quad_held bytes.now }
{
    match bytes {
        [a, b, c, d, e, f, g, h, ..] => { u64::from_le_bytes([*a, *b, *c, *d, *e, *f, *g, *h]) }
        _ => 0,
    }
}

/// The immediate of this kind in front; where the bytes are too few, any number.
pub(crate) fn immediate_in(immediate: Immediate, bytes: &[u8]) -> u64
    ensures { result ≡ spec.immediate_in immediate bytes.now }
{
    match immediate {
        Immediate::Absent => 0,
        Immediate::Byte => byte_held(bytes),
        Immediate::Count => byte_held(bytes),
        Immediate::Sext16 => byte_displaced(bytes).value % 0x1_0000,
        Immediate::Sext32 => byte_displaced(bytes).value % 0x1_0000_0000,
        Immediate::Sext64 => byte_displaced(bytes).value,
        Immediate::Word => word_held(bytes),
        Immediate::Long => long_held(bytes).value,
        Immediate::LongSext => long_displaced(bytes).value,
        Immediate::Quad => quad_held(bytes),
        Immediate::Rel8 => byte_displaced(bytes).value,
        Immediate::Short => byte_displaced(bytes).value,
        Immediate::Rel32 => long_displaced(bytes).value,
    }
}
