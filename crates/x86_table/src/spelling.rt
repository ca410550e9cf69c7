//! The bytes of parts.

ghost use Rattle.std.specs.Prelude.{◌≡◌, ◌≤◌, ◌<◌, ◌+◌, ◌++◌, ◌∷◌, [], ◌%◌, ◌^◌};
ghost use Rattle.std.specs.Int.{to_le_bytes, w16, w64};
ghost use Rattle.arrayvec.specs.ArrayVec.{array_vec_len};
ghost use Rattle.x86_table.specs.Fields.{based, located, fields_of};
ghost use Rattle.x86_table.specs.Bytes.{opt, first_byte, size_byte, repeat_byte, lock_byte, rex_byte, escape_byte, second_escape, number_or_zero, long, displacement_bytes, mode, sib, place_bytes, modrm_bytes, immediate_bytes, bytes_of};
ghost use Rattle.x86_table.specs.Fits.{scale_of, place_scale, AreBytes};

use crate::forms::{Immediate, Map, Repeat, Row, Shape};
use crate::parts::{Parts, Place, Width};
use crate::rex::rex_bits;
use arrayvec::ArrayVec;
use x86_insn::{Index, Prefix, Segment};

/// The bytes of parts, also where they are more than an instruction may have.
pub type Bytes = ArrayVec<u8, 24>;

/// The segment's byte, or that of `notrack`.
fn first_byte(segment: Option<Segment>, prefix: Prefix) -> Option<u8>
    ensures { result ≡ first_byte segment prefix }
{
    match segment {
        Some(Segment::Fs) => Some(0x64),
        Some(Segment::Gs) => Some(0x65),
        None => match prefix {
            Prefix::Notrack => Some(0x3E),
            Prefix::Absent => None,
            Prefix::Lock => None,
            Prefix::Rep => None,
            Prefix::Repe => None,
            Prefix::Repne => None,
        },
    }
}

/// The byte of the operand size.
fn size_byte(is_other: bool) -> Option<u8>
    ensures { result ≡ size_byte is_other }
{
    if is_other { Some(0x66) } else { None }
}

/// The row's own F2 or F3, or that of a repeat prefix.
fn repeat_byte(repeat: Repeat, prefix: Prefix) -> Option<u8>
    ensures { result ≡ repeat_byte repeat prefix }
{
    match repeat {
        Repeat::F2 => Some(0xF2),
        Repeat::F3 => Some(0xF3),
        Repeat::Absent => match prefix {
            Prefix::Rep => Some(0xF3),
            Prefix::Repe => Some(0xF3),
            Prefix::Repne => Some(0xF2),
            Prefix::Absent => None,
            Prefix::Lock => None,
            Prefix::Notrack => None,
        },
    }
}

/// The byte of `lock`.
fn lock_byte(prefix: Prefix) -> Option<u8>
    ensures { result ≡ lock_byte prefix }
{
    match prefix {
        Prefix::Lock => Some(0xF0),
        Prefix::Absent => None,
        Prefix::Rep => None,
        Prefix::Repe => None,
        Prefix::Repne => None,
        Prefix::Notrack => None,
    }
}

/// REX, where it stands.
#[tactic(auto, unfolding(crate::specs::Bytes::rex_byte))]
fn rex_byte(bits: u16, plain: bool) -> Option<u8>
    requires { bits < 16 }
    ensures { result ≡ rex_byte bits plain }
{
    if 0 < bits || plain {
        Some(64 + bits as u8)
    } else {
        None
    }
}

/// The first byte before an opcode of the map.
fn escape_byte(map: Map) -> Option<u8>
    ensures { result ≡ escape_byte map }
{
    match map {
        Map::One => None,
        Map::Two => Some(0x0F),
        Map::Three38 => Some(0x0F),
        Map::Three3A => Some(0x0F),
    }
}

/// The second byte before an opcode of the map.
fn second_escape(map: Map) -> Option<u8>
    ensures { result ≡ second_escape map }
{
    match map {
        Map::One => None,
        Map::Two => None,
        Map::Three38 => Some(0x38),
        Map::Three3A => Some(0x3A),
    }
}

/// Appends the byte, if it stands.
fn push_opt(out: &mut Bytes, byte: Option<u8>)
    requires { array_vec_len out.old < 24 }
    ensures bytes { out.new.items ≡ out.old.items ++ opt byte }
    ensures len { array_vec_len out.new ≤ array_vec_len out.old + 1 }
{
    match byte {
        Some(byte) => out.push(byte),
        None => {}
    }
}

/// SIB with this base.
fn sib(index: Index, low: u8) -> u8
    requires low { low < 8 }
    requires scale { scale_of index < 4 }
    ensures { result ≡ sib index low }
{
    match index {
        Index::Absent => 32 + low,
        Index::By(number, scale) => 64 * scale + 8 * (number % 8) + low,
    }
}

/// The number, or 0 where it is not known now.
fn number_or_zero(held: Option<u64>) -> u64
    ensures { result ≡ number_or_zero held }
{
    match held {
        Some(number) => number,
        None => 0,
    }
}

/// Appends the low 8 bits of the number.
fn push_byte(out: &mut Bytes, held: Option<u64>)
    requires { array_vec_len out.old + 1 ≤ 24 }
    ensures bytes { out.new.items ≡ out.old.items ++ (number_or_zero held % 256) ∷ [] }
    ensures len { array_vec_len out.new ≡ array_vec_len out.old + 1 }
{
    out.push((number_or_zero(held) % 256) as u8);
}

/// Appends the low 16 bits of the number, little-endian.
fn push_word(out: &mut Bytes, held: Option<u64>)
    requires { array_vec_len out.old + 2 ≤ 24 }
    ensures bytes { out.new.items ≡ out.old.items ++ to_le_bytes w16 (number_or_zero held % 2 ^ 16) }
    ensures len { array_vec_len out.new ≡ array_vec_len out.old + 2 }
{
    let bytes = ((number_or_zero(held) % 0x1_0000) as u16).to_le_bytes();
    out.push(bytes[0]);
    out.push(bytes[1]);
}

/// Appends the low 32 bits of the number, little-endian.
fn push_long(out: &mut Bytes, held: Option<u64>)
    requires { array_vec_len out.old + 4 ≤ 24 }
    ensures bytes { out.new.items ≡ out.old.items ++ long held }
    ensures len { array_vec_len out.new ≡ array_vec_len out.old + 4 }
{
    let bytes = ((number_or_zero(held) % 0x1_0000_0000) as u32).to_le_bytes();
    out.push(bytes[0]);
    out.push(bytes[1]);
    out.push(bytes[2]);
    out.push(bytes[3]);
}

/// Appends eight bytes.
fn push_eight(out: &mut Bytes, bytes: [u8; 8])
    requires { array_vec_len out.old + 8 ≤ 24 }
    ensures bytes { out.new.items ≡ out.old.items ++ bytes }
    ensures len { array_vec_len out.new ≡ array_vec_len out.old + 8 }
{
    for b in &bytes {
        out.push(*b);
    }
}

/// Appends the number, little-endian.
fn push_quad(out: &mut Bytes, held: Option<u64>)
    requires { array_vec_len out.old + 8 ≤ 24 }
    ensures bytes { out.new.items ≡ out.old.items ++ to_le_bytes w64 (number_or_zero held) }
    ensures len { array_vec_len out.new ≡ array_vec_len out.old + 8 }
{
    push_eight(out, number_or_zero(held).to_le_bytes());
}

/// Appends a displacement of this width.
fn push_displacement(out: &mut Bytes, width: Width, held: Option<u64>)
    requires { array_vec_len out.old + 4 ≤ 24 }
    ensures bytes { out.new.items ≡ out.old.items ++ displacement_bytes width held }
    ensures len { array_vec_len out.new ≤ array_vec_len out.old + 4 }
{
    match width {
        Width::Absent => {}
        Width::Byte => push_byte(out, held),
        Width::Long => push_long(out, held),
    }
}

/// ModRM.mod of a displacement of this width.
fn mode(width: Width) -> u8
    ensures value { result ≡ mode width }
    ensures small { result < 3 }
{
    match width {
        Width::Absent => 0,
        Width::Byte => 1,
        Width::Long => 2,
    }
}

/// Appends ModRM, SIB and displacement of an address with a base.
fn push_based(
    out: &mut Bytes,
    reg: u8,
    base: u8,
    index: Index,
    has_sib: bool,
    width: Width,
    held: Option<u64>,
)
    requires room { array_vec_len out.old + 6 ≤ 24 }
    requires reg { reg < 8 }
    requires scale { scale_of index < 4 }
    ensures bytes { let place = based base index has_sib width held in
        out.new.items ≡ out.old.items ++ place_bytes reg place }
    ensures len { array_vec_len out.new ≤ array_vec_len out.old + 6 }
{
    if has_sib {
        out.push(64 * mode(width) + 8 * reg + 4);
        out.push(sib(index, base % 8));
    } else {
        out.push(64 * mode(width) + 8 * reg + base % 8);
    }
    push_displacement(out, width, held);
}

/// Appends ModRM, SIB and displacement of a place.
fn push_place(out: &mut Bytes, reg: u8, place: Place, held: Option<u64>)
    requires room { array_vec_len out.old + 6 ≤ 24 }
    requires reg { reg < 8 }
    requires scale { place_scale (located held place) < 4 }
    ensures bytes { out.new.items ≡ out.old.items ++ place_bytes reg (located held place) }
    ensures len { array_vec_len out.new ≤ array_vec_len out.old + 6 }
{
    match place {
        Place::Absent => out.push(8 * reg),
        Place::Direct(number) => out.push(192 + 8 * reg + number % 8),
        Place::Rip => {
            out.push(8 * reg + 5);
            push_long(out, held);
        }
        Place::Bare(index) => {
            out.push(8 * reg + 4);
            out.push(sib(index, 5));
            push_long(out, held);
        }
        Place::Based(base, index, has_sib, width) => {
            push_based(out, reg, base, index, has_sib, width, held);
        }
    }
}

/// Appends what follows the opcode in a row of this shape.
fn push_modrm(out: &mut Bytes, shape: Shape, reg: u8, place: Place, held: Option<u64>)
    requires room { array_vec_len out.old + 6 ≤ 24 }
    requires reg { reg < 8 }
    requires scale { place_scale (located held place) < 4 }
    ensures bytes { out.new.items ≡ out.old.items ++ modrm_bytes shape reg (located held place) }
    ensures len { array_vec_len out.new ≤ array_vec_len out.old + 6 }
{
    match shape {
        Shape::Plain => {}
        Shape::Low => {}
        Shape::LowNotFirst => {}
        Shape::Fixed(byte) => out.push(byte),
        Shape::Digit(_, _) => push_place(out, reg, place, held),
        Shape::Slash(_) => push_place(out, reg, place, held),
    }
}

/// Appends an immediate of this kind.
fn push_immediate(out: &mut Bytes, immediate: Immediate, held: Option<u64>)
    requires room { array_vec_len out.old + 8 ≤ 24 }
    ensures bytes { out.new.items ≡ out.old.items ++ immediate_bytes immediate held }
    ensures len { array_vec_len out.new ≤ array_vec_len out.old + 8 }
{
    match immediate {
        Immediate::Absent => {}
        Immediate::Byte => push_byte(out, held),
        Immediate::Count => push_byte(out, held),
        Immediate::Sext16 => push_byte(out, held),
        Immediate::Sext32 => push_byte(out, held),
        Immediate::Sext64 => push_byte(out, held),
        Immediate::Word => push_word(out, held),
        Immediate::Long => push_long(out, held),
        Immediate::LongSext => push_long(out, held),
        Immediate::Quad => push_quad(out, held),
        Immediate::Rel8 => push_byte(out, held),
        Immediate::Short => push_byte(out, held),
        Immediate::Rel32 => push_long(out, held),
    }
}

/// Appends the prefixes before REX.
fn push_prefixes(out: &mut Bytes, row: &Row, parts: &Parts)
    requires { array_vec_len out.old + 4 ≤ 24 }
    ensures bytes { out.new.items ≡ out.old.items
        ++ opt (first_byte parts.now.segment parts.now.prefix)
        ++ opt (size_byte row.now.lead.operand_size)
        ++ opt (repeat_byte row.now.lead.repeat parts.now.prefix)
        ++ opt (lock_byte parts.now.prefix) }
    ensures len { array_vec_len out.new ≤ array_vec_len out.old + 4 }
{
    push_opt(out, first_byte(parts.segment, parts.prefix));
    push_opt(out, size_byte(row.lead.operand_size));
    push_opt(out, repeat_byte(row.lead.repeat, parts.prefix));
    push_opt(out, lock_byte(parts.prefix));
}

/// Appends the escape bytes and the opcode, whose low bits may be a register.
fn push_opcode(out: &mut Bytes, row: &Row, low: u8)
    requires room { array_vec_len out.old + 3 ≤ 24 }
    requires byte { row.now.code + low < 256 }
    ensures bytes { out.new.items ≡ out.old.items
        ++ opt (escape_byte row.now.map)
        ++ opt (second_escape row.now.map)
        ++ (row.now.code + low) ∷ [] }
    ensures len { array_vec_len out.new ≤ array_vec_len out.old + 3 }
{
    push_opt(out, escape_byte(row.map));
    push_opt(out, second_escape(row.map));
    out.push(row.code + low);
}

/// The bytes of an instruction by its row and its parts (Intel SDM, volume 2, section 2.1).
#[tactic(auto, unfolding(crate::specs::Bytes::bytes_of))]
pub fn bytes_of(row: &Row, parts: &Parts) -> Bytes
    requires { AreBytes row.now (fields_of parts.now) }
    ensures { result.items ≡ bytes_of row.now (fields_of parts.now) }
{
    let mut out = Bytes::new();
    push_prefixes(&mut out, row, parts);
    push_opt(&mut out, rex_byte(rex_bits(row, parts), parts.bare_rex));
    push_opcode(&mut out, row, parts.low % 8);
    push_modrm(
        &mut out,
        row.shape,
        parts.reg % 8,
        parts.place,
        parts.displacement,
    );
    push_immediate(&mut out, row.immediate, parts.immediate);
    out
}
