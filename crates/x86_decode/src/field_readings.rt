//! The fields that a row would have in bytes.

ghost use Rattle.std.specs.Prelude.{◌≡◌, ◌<◌, ◌-◌, ◌/◌, ◌%◌, ℕ};
ghost use Rattle.x86_table.specs.Fields.{fields_of};
ghost use Rattle.x86_decode.specs.Heads as heads;
ghost use Rattle.x86_decode.specs.Places as places;
ghost use Rattle.x86_decode.specs.FieldReadings as spec;
ghost use Rattle.x86_decode.specs.Views.{shown_head, shown_shape};

use crate::heads::Head;
use crate::immediates::immediate_in;
use crate::places::place_in;
use x86_insn::{Prefix, Segment};
use x86_table::{Parts, Place, Repeat, Row, Shape, Words};

/// The bits of REX.
pub(crate) fn rex_value(rex: Option<u8>) -> u8
    ensures value { result ≡ spec.rex_value rex }
    ensures below { result < 16 }
{
    match rex {
        None => 0,
        Some(b) => b % 16,
    }
}

/// Whether REX stands without bits.
fn is_bare(rex: Option<u8>) -> bool
    ensures { result ≡ spec.is_bare rex }
{
    match rex {
        None => false,
        Some(b) => b == 64,
    }
}

/// The segment of the first byte.
fn segment_in(first: Option<u8>) -> Option<Segment>
    ensures { result ≡ spec.segment_in first }
{
    match first {
        None => None,
        Some(b) => {
            if b == 100 {
                Some(Segment::Fs)
            } else if b == 101 {
                Some(Segment::Gs)
            } else {
                None
            }
        }
    }
}

/// The word that F3 is before rows that take this.
fn repeated(words: Words) -> Prefix
    ensures { result ≡ spec.repeated words }
{
    match words {
        Words::Rep => Prefix::Rep,
        Words::Absent => Prefix::Repe,
        Words::Lock => Prefix::Repe,
        Words::Repe => Prefix::Repe,
        Words::Notrack => Prefix::Repe,
    }
}

/// The word of a repeat byte before a row without one of its own.
fn word_in(words: Words, byte: Option<u8>) -> Prefix
    ensures { result ≡ spec.word_in words byte }
{
    match byte {
        None => Prefix::Absent,
        Some(b) => {
            if b == 243 {
                repeated(words)
            } else {
                Prefix::Repne
            }
        }
    }
}

/// The word of a repeat byte.
fn repeat_word(repeat: Repeat, words: Words, byte: Option<u8>) -> Prefix
    ensures { result ≡ spec.repeat_word repeat words byte }
{
    match repeat {
        Repeat::Absent => word_in(words, byte),
        Repeat::F2 => Prefix::Absent,
        Repeat::F3 => Prefix::Absent,
    }
}

/// The word by the bytes of `lock` and of repeats.
fn lock_word(repeat: Repeat, words: Words, byte: Option<u8>, lock: Option<u8>) -> Prefix
    ensures { result ≡ spec.lock_word repeat words byte lock }
{
    match lock {
        None => repeat_word(repeat, words, byte),
        Some(_) => Prefix::Lock,
    }
}

/// The word by all bytes.
fn prefix_in(row: &Row, head: &Head) -> Prefix
    ensures { let h = shown_head head.now in
        result ≡ spec.prefix_in row.now.lead.repeat row.now.words h.first h.repeat h.lock }
{
    match head.first {
        None => lock_word(row.lead.repeat, row.words, head.repeat, head.lock),
        Some(b) => {
            if b == 62 {
                Prefix::Notrack
            } else {
                lock_word(row.lead.repeat, row.words, head.repeat, head.lock)
            }
        }
    }
}

/// What stands behind the opcode, by the shape of a row.
#[derive(Clone, Copy)]
pub(crate) struct Shaped<'a> {
    pub reg: u8,
    pub low: u8,
    pub place: Place,
    pub displacement: u64,
    pub rest: &'a [u8],
}

/// No registers.
fn plain_shaped(low: u8, rest: &[u8]) -> Shaped<'_>
    ensures { shown_shape result ≡ spec.low_shaped low rest.now }
{
    Shaped {
        reg: 0,
        low,
        place: Place::Absent,
        displacement: 0,
        rest,
    }
}

/// ModRM.reg.
fn reg_in(r: u8, bytes: &[u8]) -> u8
    requires { r < 2 }
    ensures { result ≡ spec.reg_in r bytes.now }
{
    match bytes {
        [] => 0,
        [modrm, ..] => *modrm / 8 % 8 + 8 * r,
    }
}

/// Registers by ModRM.
fn modrm_shaped(rex: u8, bytes: &[u8]) -> Shaped<'_>
    requires { rex < 16 }
    ensures { shown_shape result ≡ spec.modrm_shaped (spec.reg_in (rex / 4 % 2) bytes.now)
        (places.place_in (rex / 2 % 2) (rex % 2) bytes.now) }
{
    let placed = place_in(rex / 2 % 2, rex % 2, bytes);
    Shaped {
        reg: reg_in(rex / 4 % 2, bytes),
        low: 0,
        place: placed.place,
        displacement: placed.displacement,
        rest: placed.rest,
    }
}

/// The bytes behind the first.
fn tail_of(bytes: &[u8]) -> &[u8]
    ensures { result.now ≡ heads.tail_of bytes.now }
{
    match bytes {
        [_, rest @ ..] => rest,
        [] => bytes,
    }
}

/// By the shape, by how much the opcode is above the row's, and by REX.
fn shape_of(shape: Shape, above: u8, rex: u8, bytes: &[u8]) -> Shaped<'_>
    requires above { above < 8 }
    requires rex { rex < 16 }
    ensures { shown_shape result ≡ spec.shaped shape above rex bytes.now }
{
    match shape {
        Shape::Plain => plain_shaped(0, bytes),
        Shape::Low => plain_shaped(above + 8 * (rex % 2), bytes),
        Shape::LowNotFirst => plain_shaped(above + 8 * (rex % 2), bytes),
        Shape::Fixed(_) => plain_shaped(0, tail_of(bytes)),
        Shape::Digit(_, _) => modrm_shaped(rex, bytes),
        Shape::Slash(_) => modrm_shaped(rex, bytes),
    }
}

/// The fields that the row would have in bytes with this head, with an opcode that is so much above the
/// row's, and with these bytes behind it.
#[tactic(auto, unfolding(crate::specs::FieldReadings::fields_in))]
pub(crate) fn parts_in(row: &Row, head: &Head, above: u8, bytes: &[u8]) -> Parts
    requires above { above < 8 }
    ensures { (o : ℕ) → o - row.now.code ≡ above
        → fields_of result ≡ spec.fields_in row.now (shown_head head.now) o bytes.now }
{
    let shaped = shape_of(row.shape, above, rex_value(head.rex), bytes);
    Parts {
        prefix: prefix_in(row, head),
        segment: segment_in(head.first),
        bare_rex: is_bare(head.rex),
        reg: shaped.reg,
        low: shaped.low,
        place: shaped.place,
        displacement: Some(shaped.displacement),
        immediate: Some(immediate_in(row.immediate, shaped.rest)),
    }
}
