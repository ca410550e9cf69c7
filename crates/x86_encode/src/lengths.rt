//! How many bytes fields have.

ghost use Rattle.std.specs.Prelude.{◌≡◌, ◌<◌, ◌+◌};
ghost use Rattle.x86_table.specs.Bytes.{first_byte, repeat_byte, lock_byte, bit, rex_bits, rex_byte, has_rex};
ghost use Rattle.x86_table.specs.Fields.{located, fields_of};
ghost use Rattle.x86_parts.specs.Keys.{count, width_length, place_length, modrm_length, length_by, modrm_least, least_length};

use x86_insn::{Prefix, Segment};
use x86_parts::{immediate_length, rex_bits};
use x86_table::{Parts, Place, Repeat, Row, Shape, Width};

/// The bytes of a displacement.
fn width_length(width: Width) -> u8
    ensures value { result ≡ width_length width }
    ensures small { result < 5 }
{
    match width {
        Width::Absent => 0,
        Width::Byte => 1,
        Width::Long => 4,
    }
}

/// The bytes of SIB and displacement.
fn place_more(place: Place, held: Option<u64>) -> u8
    ensures value { result + 1 ≡ place_length (located held place) }
    ensures small { result < 8 }
{
    match place {
        Place::Absent => 0,
        Place::Direct(_) => 0,
        Place::Rip => 4,
        Place::Bare(_) => 5,
        Place::Based(_, _, has_sib, width) => {
            if has_sib {
                1 + width_length(width)
            } else {
                width_length(width)
            }
        }
    }
}

/// What ModRM, SIB and displacement have beyond a ModRM byte.
fn modrm_more(shape: Shape, place: Place, held: Option<u64>) -> u8
    ensures value { result + modrm_least shape ≡ modrm_length shape (located held place) }
    ensures small { result < 8 }
{
    match shape {
        Shape::Digit(_, _) => place_more(place, held),
        Shape::Slash(_) => place_more(place, held),
        _ => 0,
    }
}

/// The byte of a segment or of `notrack`.
fn first_length(segment: Option<Segment>, prefix: Prefix) -> u8
    ensures value { result ≡ count (first_byte segment prefix) }
    ensures small { result < 2 }
{
    match segment {
        Some(Segment::Fs) => 1,
        Some(Segment::Gs) => 1,
        None => match prefix {
            Prefix::Notrack => 1,
            _ => 0,
        },
    }
}

/// F2 or F3.
fn repeat_length(repeat: Repeat, prefix: Prefix) -> u8
    ensures value { result ≡ count (repeat_byte repeat prefix) }
    ensures small { result < 2 }
{
    match repeat {
        Repeat::F2 => 1,
        Repeat::F3 => 1,
        Repeat::Absent => match prefix {
            Prefix::Rep => 1,
            Prefix::Repe => 1,
            Prefix::Repne => 1,
            _ => 0,
        },
    }
}

/// F0.
fn lock_length(prefix: Prefix) -> u8
    ensures value { result ≡ count (lock_byte prefix) }
    ensures small { result < 2 }
{
    match prefix {
        Prefix::Lock => 1,
        _ => 0,
    }
}

/// Whether REX stands.
#[tactic(auto, unfolding(x86_table::specs::Bytes::rex_bits))]
pub fn has_rex(row: &Row, parts: &Parts) -> bool
    ensures { result ≡ has_rex row.now (fields_of parts.now) }
{
    0 < rex_bits(row, parts.reg, parts.low, parts.place, parts.displacement) || parts.bare_rex
}

/// REX, where the row alone has none.
#[tactic(auto, using(crate::proofs::Length::rex_more, crate::proofs::Length::rex_none))]
fn rex_more(row: &Row, rex: bool, parts: &Parts) -> u8
    requires { rex ≡ has_rex row.now (fields_of parts.now) }
    ensures value { let p = fields_of parts.now in
        result + bit row.now.lead.wide ≡ count (rex_byte (rex_bits row.now p) p.bare_rex) }
    ensures small { result < 2 }
{
    if row.lead.wide {
        0
    } else if rex {
        1
    } else {
        0
    }
}

/// How many bytes the fields have in a row that has at least so many.
#[tactic(auto, unfolding(x86_parts::specs::Keys::length_by), using(crate::proofs::Length::least_small))]
pub fn length_of(least: u8, row: &Row, rex: bool, parts: &Parts) -> u8
    requires least { least ≡ least_length row.now }
    requires rex { rex ≡ has_rex row.now (fields_of parts.now) }
    ensures value { result ≡ length_by row.now (fields_of parts.now) }
    ensures small { result < 40 }
{
    least
        + first_length(parts.segment, parts.prefix)
        + repeat_length(row.lead.repeat, parts.prefix)
        + lock_length(parts.prefix)
        + rex_more(row, rex, parts)
        + modrm_more(row.shape, parts.place, parts.displacement)
}
