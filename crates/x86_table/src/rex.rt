//! The bits of REX.

ghost use Rattle.std.specs.Prelude.{◌≡◌, ◌≤◌};
ghost use Rattle.x86_table.specs.Fields.{located, fields_of};
ghost use Rattle.x86_table.specs.Bytes.{rex_bits, place_x, place_b, index_high};

use crate::forms::Row;
use crate::parts::{Parts, Place};
use x86_insn::Index;

/// REX.X of the index.
fn index_high(index: Index) -> u8
    ensures value { result ≡ index_high index }
    ensures small { result ≤ 31 }
{
    match index {
        Index::Absent => 0,
        Index::By(number, _) => number / 8,
    }
}

/// REX.X of the place.
fn place_x(place: Place, moved: Option<u64>) -> u8
    ensures value { result ≡ place_x (located moved place) }
    ensures small { result ≤ 31 }
{
    match place {
        Place::Absent => 0,
        Place::Direct(_) => 0,
        Place::Rip => 0,
        Place::Bare(index) => index_high(index),
        Place::Based(_, index, _, _) => index_high(index),
    }
}

/// REX.B of the place.
fn place_b(place: Place, moved: Option<u64>) -> u8
    ensures value { result ≡ place_b (located moved place) }
    ensures small { result ≤ 31 }
{
    match place {
        Place::Absent => 0,
        Place::Direct(number) => number / 8,
        Place::Rip => 0,
        Place::Bare(_) => 0,
        Place::Based(base, _, _, _) => base / 8,
    }
}

/// The bits of REX, as 0000WRXB, of parts that fit the row.
#[tactic(auto, unfolding(crate::specs::Bytes::rex_bits))]
pub fn rex_bits(row: &Row, parts: &Parts) -> u16
    ensures value { result ≡ rex_bits row.now (fields_of parts.now) }
    ensures small { result ≤ 1000 }
{
    let wide: u16 = if row.lead.wide { 8 } else { 0 };
    wide + 4 * u16::from(parts.reg / 8)
        + 2 * u16::from(place_x(parts.place, parts.displacement))
        + (u16::from(place_b(parts.place, parts.displacement)) + u16::from(parts.low / 8))
}
