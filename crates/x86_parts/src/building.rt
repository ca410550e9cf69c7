//! The fields that the encoder takes for a row.

ghost use Rattle.std.specs.Prelude.{◌≡◌, ◌<◌, ◌+◌, ◌*◌, ◌/◌, true};
ghost use Rattle.x86_insn.specs.Views.{displaced, seen_at, view_of};
ghost use Rattle.x86_table.specs.Bytes.{bit, index_high, place_x, place_b};
ghost use Rattle.x86_table.specs.Fields.{located, fields_of};
ghost use Rattle.x86_table.specs.Fits.{is_byte, is_middle};
ghost use Rattle.x86_parts.specs.Building.{is_rm, is_reg, is_low, is_held, pick, number_of, segment_of, held_of, reg_of, rm_operand, low_of, held_in, needs_sib, least_width, place_at, place_of, wants, wants_one, built};
ghost use Rattle.x86_parts.specs.Codes.{last_of, reduced_if, plain_memory, normal};

use crate::immediates::{is_signed_8, last_of};
use x86_insn::{Base, Class, Index, Insn, Segment, Slot, Values};
use x86_table::{Immediate, Parts, Pattern, Place, Row, Shape, Width};

/// Whether a register or memory stands in ModRM.rm.
fn is_rm(pattern: Pattern) -> bool
    ensures { result ≡ is_rm pattern }
{
    match pattern {
        Pattern::RegMem(_, _) => true,
        _ => false,
    }
}

/// Whether a register stands in ModRM.reg.
fn is_reg(pattern: Pattern) -> bool
    ensures { result ≡ is_reg pattern }
{
    match pattern {
        Pattern::Reg(_) => true,
        _ => false,
    }
}

/// Whether a register stands in the opcode.
fn is_low(pattern: Pattern) -> bool
    ensures { result ≡ is_low pattern }
{
    match pattern {
        Pattern::Low(_) => true,
        _ => false,
    }
}

/// Whether an immediate or a branch target stands there.
fn is_held(pattern: Pattern) -> bool
    ensures { result ≡ is_held pattern }
{
    match pattern {
        Pattern::Immediate => true,
        Pattern::Target => true,
        _ => false,
    }
}

/// The operand that may stand in ModRM.rm.
#[tactic(auto, unfolding(crate::specs::Building::pick), using(crate::proofs::Picks::rm_plain))]
fn first_rm(row: &Row, insn: &Insn, values: &Values) -> Slot
    ensures { let view = view_of insn.now values.now in
        plain_memory (seen_at insn.now values.now result) ≡ pick is_rm row.now view }
{
    if is_rm(row.first) {
        insn.first
    } else if is_rm(row.second) {
        insn.second
    } else if is_rm(row.third) {
        insn.third
    } else {
        Slot::Absent
    }
}

/// The operand in ModRM.rm.
fn rm_slot(row: &Row, insn: &Insn, values: &Values) -> Slot
    ensures { let view = view_of insn.now values.now in
        plain_memory (seen_at insn.now values.now result) ≡ rm_operand row.now.shape (pick is_rm row.now view) }
{
    match row.shape {
        Shape::Digit(_, _) => first_rm(row, insn, values),
        Shape::Slash(_) => first_rm(row, insn, values),
        _ => Slot::Absent,
    }
}

/// The operand that may stand in ModRM.reg.
#[tactic(auto, unfolding(crate::specs::Building::pick), using(crate::proofs::Picks::reg_plain))]
fn first_reg(row: &Row, insn: &Insn, values: &Values) -> Slot
    ensures { let view = view_of insn.now values.now in
        seen_at insn.now values.now result ≡ pick is_reg row.now view }
{
    if is_reg(row.first) {
        insn.first
    } else if is_reg(row.second) {
        insn.second
    } else if is_reg(row.third) {
        insn.third
    } else {
        Slot::Absent
    }
}

/// The operand that may stand in the opcode.
#[tactic(auto, unfolding(crate::specs::Building::pick), using(crate::proofs::Picks::low_plain))]
fn first_low(row: &Row, insn: &Insn, values: &Values) -> Slot
    ensures { let view = view_of insn.now values.now in
        seen_at insn.now values.now result ≡ pick is_low row.now view }
{
    if is_low(row.first) {
        insn.first
    } else if is_low(row.second) {
        insn.second
    } else if is_low(row.third) {
        insn.third
    } else {
        Slot::Absent
    }
}

/// The number of a register.
fn number_at(slot: Slot, insn: &Insn, values: &Values) -> u8
    ensures { result ≡ number_of (seen_at insn.now values.now slot) }
{
    match slot {
        Slot::Register(reg) => reg.number,
        _ => 0,
    }
}

/// ModRM.reg.
fn reg_part(row: &Row, insn: &Insn, values: &Values) -> u8
    ensures { result ≡ reg_of row.now.shape (pick is_reg row.now (view_of insn.now values.now)) }
{
    match row.shape {
        Shape::Digit(digit, _) => digit,
        Shape::Slash(_) => number_at(first_reg(row, insn, values), insn, values),
        _ => 0,
    }
}

/// The register in the opcode.
fn low_part(row: &Row, insn: &Insn, values: &Values) -> u8
    ensures { result ≡ low_of row.now.shape (pick is_low row.now (view_of insn.now values.now)) }
{
    match row.shape {
        Shape::Low => number_at(first_low(row, insn, values), insn, values),
        Shape::LowNotFirst => number_at(first_low(row, insn, values), insn, values),
        _ => 0,
    }
}

/// Whether a SIB byte must stand.
fn needs_sib(index: Index, base: u8) -> bool
    ensures { result ≡ needs_sib index base }
{
    match index {
        Index::Absent => base % 8 == 4,
        Index::By(_, _) => true,
    }
}

/// The least displacement that holds the value.
fn least_width(base: u8, held: Option<u64>) -> Width
    ensures { result ≡ least_width base held }
{
    match held {
        None => Width::Long,
        Some(value) => {
            if value == 0 && base % 8 != 5 {
                Width::Absent
            } else if is_signed_8(value) {
                Width::Byte
            } else {
                Width::Long
            }
        }
    }
}

/// An address with the fewest bytes, and its displacement.
#[derive(Clone, Copy)]
pub struct Laid {
    pub place: Place,
    pub displacement: Option<u64>,
}

/// The address of an instruction.
pub fn laid_out(insn: &Insn, values: &Values) -> Laid
    ensures { let a = insn.now.address in located result.displacement result.place
        ≡ place_at a.base a.index (displaced a.base values.now.displacement) }
{
    let held = values.displacement;
    match insn.address.base {
        Base::Absent => Laid {
            place: Place::Bare(insn.address.index),
            displacement: held,
        },
        Base::Rip => Laid {
            place: Place::Rip,
            displacement: None,
        },
        Base::Of(base) => Laid {
            place: Place::Based(
                base,
                insn.address.index,
                needs_sib(insn.address.index, base),
                least_width(base, held),
            ),
            displacement: held,
        },
    }
}

/// What ModRM and SIB name.
fn place_at(slot: Slot, laid: &Laid, insn: &Insn, values: &Values) -> Place
    requires { let a = insn.now.address in located laid.now.displacement laid.now.place
        ≡ place_at a.base a.index (displaced a.base values.now.displacement) }
    ensures { located laid.now.displacement result
        ≡ place_of (plain_memory (seen_at insn.now values.now slot)) }
{
    match slot {
        Slot::Register(reg) => Place::Direct(reg.number),
        Slot::Memory => laid.place,
        _ => Place::Absent,
    }
}

/// The segment of an address.
fn segment_at(slot: Slot, insn: &Insn, values: &Values) -> Option<Segment>
    ensures { result ≡ segment_of (plain_memory (seen_at insn.now values.now slot)) }
{
    match slot {
        Slot::Memory => insn.address.segment,
        _ => None,
    }
}

/// A value modulo the operand size, or 0 where the immediate does not hold it.
fn reduced(immediate: Immediate, held: Option<u64>) -> Option<u64>
    ensures { result ≡ held_of (reduced_if (last_of immediate) held) }
{
    match held {
        None => None,
        Some(value) => {
            let last = last_of(immediate);
            if value <= last {
                Some(value)
            } else if 0xFFFF_FFFF_FFFF_FFFF - last / 2 <= value {
                Some(value - (0xFFFF_FFFF_FFFF_FFFF - last))
            } else {
                Some(0)
            }
        }
    }
}

/// What an immediate or a target holds.
fn held_at(
    immediate: Immediate,
    pattern: Pattern,
    slot: Slot,
    insn: &Insn,
    values: &Values,
) -> Option<u64>
    ensures { is_held pattern ≡ true
        → result ≡ held_of (normal immediate pattern (seen_at insn.now values.now slot)) }
{
    match slot {
        Slot::Immediate => match pattern {
            Pattern::Immediate => reduced(immediate, values.immediate),
            _ => values.immediate,
        },
        Slot::Target => None,
        _ => Some(0),
    }
}

/// What the immediate or the target holds.
#[tactic(auto, unfolding(crate::specs::Building::pick))]
fn first_held(row: &Row, insn: &Insn, values: &Values) -> Option<u64>
    ensures { result ≡ held_of (pick is_held row.now (view_of insn.now values.now)) }
{
    if is_held(row.first) {
        held_at(row.immediate, row.first, insn.first, insn, values)
    } else if is_held(row.second) {
        held_at(row.immediate, row.second, insn.second, insn, values)
    } else if is_held(row.third) {
        held_at(row.immediate, row.third, insn.third, insn, values)
    } else {
        Some(0)
    }
}

/// The immediate or the distance.
fn held_part(row: &Row, insn: &Insn, values: &Values) -> Option<u64>
    ensures { let view = view_of insn.now values.now in
        result ≡ held_in row.now.immediate (pick is_held row.now view) }
{
    match row.immediate {
        Immediate::Absent => Some(0),
        _ => first_held(row, insn, values),
    }
}

/// Whether it is one of the 8-bit registers with names of their own.
pub fn is_byte(class: Class) -> bool
    ensures { result ≡ is_byte class }
{
    match class {
        Class::Byte => true,
        _ => false,
    }
}

/// Whether the number is one that 8-bit registers share.
pub fn is_middle(number: u8) -> bool
    ensures { result ≡ is_middle number }
{
    4 <= number && number < 8
}

/// Whether it is spl, bpl, sil or dil.
fn wants_at(
    immediate: Immediate,
    pattern: Pattern,
    slot: Slot,
    insn: &Insn,
    values: &Values,
) -> bool
    ensures { result ≡ wants (normal immediate pattern (seen_at insn.now values.now slot)) }
{
    match slot {
        Slot::Register(reg) => is_byte(reg.class) && is_middle(reg.number),
        _ => false,
    }
}

/// Whether an operand is.
fn wants_one(row: &Row, insn: &Insn, values: &Values) -> bool
    ensures { result ≡ wants_one row.now (view_of insn.now values.now) }
{
    wants_at(row.immediate, row.first, insn.first, insn, values)
        || (wants_at(row.immediate, row.second, insn.second, insn, values)
            || wants_at(row.immediate, row.third, insn.third, insn, values))
}

/// REX.X of an index.
fn index_high(index: Index) -> u8
    ensures value { result ≡ index_high index }
    ensures small { result < 32 }
{
    match index {
        Index::Absent => 0,
        Index::By(number, _) => number / 8,
    }
}

/// REX.X and REX.B of a place.
fn place_bits(place: Place, held: Option<u64>) -> u8
    ensures value { result ≡ 2 * place_x (located held place) + place_b (located held place) }
    ensures small { result < 100 }
{
    match place {
        Place::Absent => 0,
        Place::Direct(number) => number / 8,
        Place::Rip => 0,
        Place::Bare(index) => 2 * index_high(index),
        Place::Based(base, index, _, _) => 2 * index_high(index) + base / 8,
    }
}

/// The bits of REX.
pub fn rex_bits(row: &Row, reg: u8, low: u8, place: Place, held: Option<u64>) -> u32
    ensures value { let p = located held place in result
        ≡ 8 * bit row.now.lead.wide + 4 * (reg / 8) + 2 * place_x p + (place_b p + low / 8) }
    ensures small { result < 1000 }
{
    (if row.lead.wide { 8 } else { 0 })
        + 4 * (reg / 8) as u32
        + (place_bits(place, held) as u32 + (low / 8) as u32)
}

/// The fields of an instruction in a row.
pub fn built(row: &Row, laid: &Laid, insn: &Insn, values: &Values) -> Parts
    requires { let a = insn.now.address in located laid.now.displacement laid.now.place
        ≡ place_at a.base a.index (displaced a.base values.now.displacement) }
    ensures { fields_of result ≡ built row.now (view_of insn.now values.now) }
{
    let rm = rm_slot(row, insn, values);
    let place = place_at(rm, laid, insn, values);
    let reg = reg_part(row, insn, values);
    let low = low_part(row, insn, values);
    let bits = rex_bits(row, reg, low, place, laid.displacement);
    Parts {
        prefix: insn.prefix,
        segment: segment_at(rm, insn, values),
        bare_rex: bits == 0 && wants_one(row, insn, values),
        reg,
        low,
        place,
        displacement: laid.displacement,
        immediate: held_part(row, insn, values),
    }
}
