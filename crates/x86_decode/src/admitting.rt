//! Which rows admit a head.

ghost use Rattle.std.specs.Prelude.{◌≡◌, ◌<◌};
ghost use Rattle.x86_decode.specs.Admitting as spec;
ghost use Rattle.x86_decode.specs.Views.{shown_head};
ghost use Rattle.x86_table.specs.Fits.{takes_none};
ghost use Rattle.x86_table.specs.Heads as table;

use crate::field_readings::rex_value;
use crate::heads::Head;
use x86_table::{Map, Repeat, Rm, Row, Shape, Words};

/// Whether ModRM.mod may be that of the byte.
fn takes_mode(rm: Rm, modrm: u8) -> bool
    ensures { result ≡ spec.takes_mode rm modrm }
{
    match rm {
        Rm::Any => true,
        Rm::Memory => modrm < 192,
        Rm::Register => 192 <= modrm,
    }
}

/// Whether the shape takes what is behind the opcode.
fn takes_tail(shape: Shape, above: u8, high: u8, bytes: &[u8]) -> bool
    requires high { high < 2 }
    ensures { result ≡ spec.takes_tail shape above high bytes.now }
{
    match shape {
        Shape::Plain => high == 0,
        Shape::Low => true,
        Shape::LowNotFirst => !(above == 0 && high == 0),
        Shape::Fixed(own) => match bytes {
            [] => false,
            [modrm, ..] => *modrm == own,
        },
        Shape::Digit(digit, rm) => match bytes {
            [] => false,
            [modrm, ..] => *modrm / 8 % 8 == digit && takes_mode(rm, *modrm),
        },
        Shape::Slash(rm) => match bytes {
            [] => false,
            [modrm, ..] => takes_mode(rm, *modrm),
        },
    }
}

/// Whether the row has no F2 or F3 of its own.
fn takes_none(repeat: Repeat) -> bool
    ensures { result ≡ takes_none repeat }
{
    match repeat {
        Repeat::Absent => true,
        Repeat::F2 => false,
        Repeat::F3 => false,
    }
}

/// Whether F2 may stand.
fn takes_f2(repeat: Repeat, words: Words) -> bool
    ensures { result ≡ table.takes_f2 repeat words }
{
    match repeat {
        Repeat::F2 => true,
        Repeat::F3 => false,
        Repeat::Absent => match words {
            Words::Repe => true,
            Words::Absent => false,
            Words::Lock => false,
            Words::Rep => false,
            Words::Notrack => false,
        },
    }
}

/// Whether F3 may stand.
fn takes_f3(repeat: Repeat, words: Words) -> bool
    ensures { result ≡ table.takes_f3 repeat words }
{
    match repeat {
        Repeat::F3 => true,
        Repeat::F2 => false,
        Repeat::Absent => match words {
            Words::Rep => true,
            Words::Repe => true,
            Words::Absent => false,
            Words::Lock => false,
            Words::Notrack => false,
        },
    }
}

/// Whether the repeat byte may stand.
fn takes_repeat(repeat: Repeat, words: Words, byte: Option<u8>) -> bool
    ensures { result ≡ spec.takes_repeat repeat words byte }
{
    match byte {
        None => takes_none(repeat),
        Some(b) => {
            if b == 243 {
                takes_f3(repeat, words)
            } else {
                takes_f2(repeat, words)
            }
        }
    }
}

/// The number of a map.
pub(crate) fn map_number(map: Map) -> u16
    ensures value { result ≡ table.map_number map }
    ensures within { result < 5 }
    ensures some { 0 < result }
{
    match map {
        Map::One => 1,
        Map::Two => 2,
        Map::Three38 => 3,
        Map::Three3A => 4,
    }
}

/// How many bytes the opcode may be.
fn span(shape: Shape) -> u16
    ensures value { result ≡ table.span shape }
    ensures within { result < 9 }
{
    match shape {
        Shape::Plain => 1,
        Shape::Low => 8,
        Shape::LowNotFirst => 8,
        Shape::Fixed(_) => 1,
        Shape::Digit(_, _) => 1,
        Shape::Slash(_) => 1,
    }
}

/// Whether the row has opcodes of this map up to this one.
fn covers(map: Map, opcode: u8, row: &Row) -> bool
    ensures { result ≡ spec.covers map opcode row.now }
{
    map_number(row.map) == map_number(map)
        && (row.code <= opcode && u16::from(opcode) < u16::from(row.code) + span(row.shape))
}

/// Whether the row admits this head, with this opcode and what is behind it.
#[tactic(auto, unfolding(crate::specs::Admitting::admits))]
pub(crate) fn admits(map: Map, head: &Head, opcode: u8, tail: &[u8], row: &Row) -> bool
    ensures { result ≡ spec.admits map (shown_head head.now) opcode tail.now row.now }
{
    covers(map, opcode, row)
        && (row.lead.operand_size == head.size.is_some()
            && (u8::from(row.lead.wide) == rex_value(head.rex) / 8
                && (takes_repeat(row.lead.repeat, row.words, head.repeat)
                    && takes_tail(
                        row.shape,
                        opcode.saturating_sub(row.code),
                        rex_value(head.rex) % 2,
                        tail,
                    ))))
}
