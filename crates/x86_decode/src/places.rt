//! What ModRM, SIB and displacement name (Intel SDM, volume 2, section 2.1.5).

ghost use Rattle.std.specs.Prelude.{◌≡◌, ◌<◌, Some};
ghost use Rattle.x86_table.specs.Fields.{located};
ghost use Rattle.x86_decode.specs.Places as spec;
ghost use Rattle.x86_decode.specs.Views.{shown_number, shown_place};

use x86_insn::Index;
use x86_table::{Place, Width};

/// A number, and the bytes behind it.
#[derive(Clone, Copy)]
pub(crate) struct Numbered<'a> {
    pub value: u64,
    pub rest: &'a [u8],
}

/// A place, its displacement, and the bytes behind it.
#[derive(Clone, Copy)]
pub(crate) struct Placed<'a> {
    pub place: Place,
    pub displacement: u64,
    pub rest: &'a [u8],
}

/// A byte, sign-extended.
fn signed_byte(value: u8) -> u64
    ensures { result ≡ spec.signed_byte value }
{
    if value < 128 {
        u64::from(value)
    } else {
        u64::from(value) + 0xFFFF_FFFF_FFFF_FF00
    }
}

/// 32 bits, sign-extended.
fn signed_long(value: u32) -> u64
    ensures { result ≡ spec.signed_long value }
{
    if value < 0x8000_0000 {
        u64::from(value)
    } else {
        u64::from(value) + 0xFFFF_FFFF_0000_0000
    }
}

/// The byte in front, sign-extended.
pub(crate) fn byte_displaced(bytes: &[u8]) -> Numbered<'_>
    ensures { shown_number result ≡ spec.byte_displaced bytes.now }
{
    match bytes {
        [b, rest @ ..] => Numbered {
            value: signed_byte(*b),
            rest,
        },
        [] => Numbered {
            value: 0,
            rest: bytes,
        },
    }
}

/// Four bytes.
pub(crate) fn long_held(bytes: &[u8]) -> Numbered<'_>
    ensures { shown_number result ≡ spec.long_held bytes.now }
{
    match bytes {
        [a, b, c, d, rest @ ..] => Numbered {
            value: u64::from(u32::from_le_bytes([*a, *b, *c, *d])),
            rest,
        },
        _ => Numbered {
            value: 0,
            rest: &[],
        },
    }
}

/// Four bytes, sign-extended.
pub(crate) fn long_displaced(bytes: &[u8]) -> Numbered<'_>
    ensures { shown_number result ≡ spec.long_displaced bytes.now }
{
    match bytes {
        [a, b, c, d, rest @ ..] => Numbered {
            value: signed_long(u32::from_le_bytes([*a, *b, *c, *d])),
            rest,
        },
        _ => Numbered {
            value: 0,
            rest: &[],
        },
    }
}

/// A displacement of this width.
fn displaced(width: Width, bytes: &[u8]) -> Numbered<'_>
    ensures { shown_number result ≡ spec.displaced width bytes.now }
{
    match width {
        Width::Absent => Numbered {
            value: 0,
            rest: bytes,
        },
        Width::Byte => byte_displaced(bytes),
        Width::Long => long_displaced(bytes),
    }
}

/// The width by ModRM.mod.
fn width_of(mode: u8) -> Width
    ensures { result ≡ spec.width_of mode }
{
    if mode == 0 {
        Width::Absent
    } else if mode == 1 {
        Width::Byte
    } else {
        Width::Long
    }
}

/// The index by REX.X and SIB.
fn index_in(x: u8, sib: u8) -> Index
    requires { x < 2 }
    ensures { result ≡ spec.index_in x sib }
{
    let number = sib / 8 % 8 + 8 * x;
    if number == 4 {
        Index::Absent
    } else {
        Index::By(number, sib / 64)
    }
}

/// An address by a SIB byte.
fn sib_placed(x: u8, b: u8, mode: u8, bytes: &[u8]) -> Placed<'_>
    requires x { x < 2 }
    requires b { b < 2 }
    ensures { shown_place result ≡ spec.sib_placed x b mode bytes.now }
{
    match bytes {
        [] => Placed {
            place: Place::Bare(Index::Absent),
            displacement: 0,
            rest: bytes,
        },
        [sib, rest @ ..] => {
            let index = index_in(x, *sib);
            if mode == 0 && *sib % 8 == 5 {
                let number = long_displaced(rest);
                Placed {
                    place: Place::Bare(index),
                    displacement: number.value,
                    rest: number.rest,
                }
            } else {
                let width = width_of(mode);
                let number = displaced(width, rest);
                let place = Place::Based(*sib % 8 + 8 * b, index, true, width);
                Placed {
                    place,
                    displacement: number.value,
                    rest: number.rest,
                }
            }
        }
    }
}

/// An address by ModRM.
fn memory_placed(x: u8, b: u8, mode: u8, low: u8, bytes: &[u8]) -> Placed<'_>
    requires x { x < 2 }
    requires b { b < 2 }
    requires low { low < 8 }
    ensures { shown_place result ≡ spec.memory_placed x b mode low bytes.now }
{
    if low == 4 {
        sib_placed(x, b, mode, bytes)
    } else if mode == 0 && low == 5 {
        let number = long_displaced(bytes);
        Placed {
            place: Place::Rip,
            displacement: number.value,
            rest: number.rest,
        }
    } else {
        let width = width_of(mode);
        let number = displaced(width, bytes);
        let place = Place::Based(low + 8 * b, Index::Absent, false, width);
        Placed {
            place,
            displacement: number.value,
            rest: number.rest,
        }
    }
}

/// A place by REX.X, REX.B and the bytes from ModRM on.
#[tactic(auto, unfolding(crate::specs::Places::place_in))]
pub(crate) fn place_in(x: u8, b: u8, bytes: &[u8]) -> Placed<'_>
    requires x { x < 2 }
    requires b { b < 2 }
    ensures { shown_place result ≡ spec.place_in x b bytes.now }
{
    match bytes {
        [] => Placed {
            place: Place::Direct(0),
            displacement: 0,
            rest: bytes,
        },
        [modrm, rest @ ..] => {
            let low = *modrm % 8;
            if *modrm / 64 == 3 {
                Placed {
                    place: Place::Direct(low + 8 * b),
                    displacement: 0,
                    rest,
                }
            } else {
                memory_placed(x, b, *modrm / 64, low, rest)
            }
        }
    }
}
