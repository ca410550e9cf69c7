//! From a row and the parts of an instruction to the instruction itself.

ghost use Rattle.std.specs.Prelude.{◌≡◌, if◌then◌else◌, IfOk, Some, true};
ghost use Rattle.x86_table.specs.Bytes.{has_rex};
ghost use Rattle.x86_table.specs.Fields.{fields_of, located};
ghost use Rattle.x86_table.specs.Reads.{class_shown, from_start, is_known, is_known_place, meaning};
ghost use Rattle.x86_decode.specs.Instructions.{number_in, offset_in, shown_insn};
ghost use Rattle.x86_decode.specs.RowSlots as spec;
ghost use Rattle.x86_decode.specs.Views.{IsKnown, IsOfRow};

use crate::fronts::Front;
use asm_base::NoMemory;
use asm_expr::{BinaryOp, Expr};
use std::alloc::Global;
use x86_insn::{Address, Amount, Base, Class, Index, Insn, Reg, Slot, Value};
use x86_table::mnemonics::integers::XCHG;
use x86_table::{Parts, Pattern, Place, Row, rex_bits};

/// The class of a register: of 8-bit registers 4 to 7 are ah to bh without REX.
fn class_shown(rex: bool, class: Class, number: u8) -> Class
    ensures { result ≡ class_shown rex class number }
{
    match class {
        Class::Byte if !rex && (4 <= number && number < 8) => Class::High,
        _ => class,
    }
}

/// A register of the class.
fn register_slot(rex: bool, class: Class, number: u8) -> Slot
    ensures { result ≡ spec.register_slot rex class number }
{
    Slot::Register(Reg {
        class: class_shown(rex, class, number),
        number,
    })
}

/// The slot of a place.
fn place_slot(rex: bool, class: Class, place: Place, moved: Option<u64>) -> Slot
    ensures { result ≡ spec.place_slot rex class (located moved place) }
{
    match place {
        Place::Absent => Slot::Absent,
        Place::Direct(number) => register_slot(rex, class, number),
        Place::Rip => Slot::Memory,
        Place::Bare(_) => Slot::Memory,
        Place::Based(_, _, _, _) => Slot::Memory,
    }
}

/// The slot of an operand of a row.
fn slot_by(rex: bool, parts: &Parts, pattern: Pattern) -> Slot
    ensures { result ≡ spec.slot_by rex (fields_of parts.now) pattern }
{
    match pattern {
        Pattern::Absent => Slot::Absent,
        Pattern::RegMem(class, _) => place_slot(rex, class, parts.place, parts.displacement),
        Pattern::Reg(class) => register_slot(rex, class, parts.reg),
        Pattern::Low(class) => register_slot(rex, class, parts.low),
        Pattern::Accumulator(class) => Slot::Register(Reg { class, number: 0 }),
        Pattern::Cl => Slot::Register(Reg {
            class: Class::Byte,
            number: 1,
        }),
        Pattern::One => Slot::Immediate,
        Pattern::Immediate => Slot::Immediate,
        Pattern::Target => Slot::Target,
    }
}

/// The address of a place.
fn address_by(parts: &Parts) -> Address
    ensures { result ≡ spec.address_by (fields_of parts.now) }
{
    let segment = parts.segment;
    let (base, index) = match parts.place {
        Place::Absent => (Base::Absent, Index::Absent),
        Place::Direct(_) => (Base::Absent, Index::Absent),
        Place::Rip => (Base::Rip, Index::Absent),
        Place::Bare(index) => (Base::Absent, index),
        Place::Based(number, index, _, _) => (Base::Of(number), index),
    };
    Address {
        segment,
        base,
        index,
    }
}

/// Whether the two operands of `xchg` change places, so that the accumulator stands first.
fn turns(row: &Row, one: Slot, other: Slot) -> bool
    ensures { result ≡ spec.turns row.now one other }
{
    row.name.0 == XCHG
        && (matches!(one, Slot::Register(_))
            && match other {
                Slot::Register(reg) => reg.number == 0,
                _ => false,
            })
}

/// The one slot or the other.
fn either(first: bool, one: Slot, other: Slot) -> Slot
    ensures { result ≡ (if first then one else other) }
{
    if first { one } else { other }
}

/// Whether an operand of the row is the number 1.
fn has_one(row: &Row) -> bool
    ensures { result ≡ spec.has spec.is_one row.now }
{
    matches!(row.first, Pattern::One)
        || (matches!(row.second, Pattern::One) || matches!(row.third, Pattern::One))
}

/// Whether an operand of the row is a branch target.
fn has_target(row: &Row) -> bool
    ensures { result ≡ spec.has spec.is_target row.now }
{
    matches!(row.first, Pattern::Target)
        || (matches!(row.second, Pattern::Target) || matches!(row.third, Pattern::Target))
}

/// Whether REX stands.
fn has_rex(row: &Row, parts: &Parts) -> bool
    ensures { result ≡ has_rex row.now (fields_of parts.now) }
{
    0 < rex_bits(row, parts) || parts.bare_rex
}

/// A number.
fn number_value(number: u64) -> Value<'static>
    ensures { number_in result ≡ Some number }
{
    Value {
        amount: Amount::Number(number),
        suffix: None,
    }
}

/// The first byte of the instruction, and a number more.
fn offset_value(alloc: Global, number: u64) -> Result<Value<'static>, NoMemory>
    ensures { IfOk result (λ value. offset_in value ≡ Some number) }
{
    let here = Box::new(alloc, Expr::Here)?;
    let more = Box::new(alloc, Expr::Num(number))?;
    let sum = Box::new(alloc, Expr::Binary(BinaryOp::Add, here, more))?;
    Ok(Value {
        amount: Amount::Tree(sum),
        suffix: None,
    })
}

/// The value of what is so far from the end of an instruction of so many bytes.
fn value_behind(
    alloc: Global,
    len: usize,
    distance: Option<u64>,
) -> Result<Value<'static>, NoMemory>
    requires known { is_known distance ≡ true }
    ensures { IfOk result (λ value. offset_in value ≡ from_start len distance) }
{
    match distance {
        Some(distance) => offset_value(alloc, distance.wrapping_add(len as u64)),
        None => Ok(number_value(0)),
    }
}

/// The value of what is a number.
fn value_of(number: Option<u64>) -> Value<'static>
    requires known { is_known number ≡ true }
    ensures { number_in result ≡ number }
{
    match number {
        Some(number) => number_value(number),
        None => number_value(0),
    }
}

/// The displacement of a place.
fn place_value(
    alloc: Global,
    len: usize,
    place: Place,
    moved: Option<u64>,
) -> Result<Value<'static>, NoMemory>
    requires known { is_known_place (located moved place) ≡ true }
    ensures { IfOk result (λ value. spec.MovesPlace len (located moved place) value) }
{
    match place {
        Place::Absent => Ok(number_value(0)),
        Place::Direct(_) => Ok(number_value(0)),
        Place::Rip => value_behind(alloc, len, moved),
        Place::Bare(_) => Ok(value_of(moved)),
        Place::Based(_, _, _, _) => Ok(value_of(moved)),
    }
}

/// The displacement or the branch target.
fn displacement_of(
    alloc: Global,
    len: usize,
    row: &Row,
    parts: &Parts,
) -> Result<Value<'static>, NoMemory>
    requires known { IsKnown (fields_of parts.now) }
    ensures { let targets = spec.has spec.is_target row.now in
        IfOk result (λ value. spec.Moves targets len (fields_of parts.now) value) }
{
    if has_target(row) {
        value_behind(alloc, len, parts.immediate)
    } else {
        place_value(alloc, len, parts.place, parts.displacement)
    }
}

/// The immediate.
fn immediate_of(row: &Row, parts: &Parts) -> Value<'static>
    requires known { IsKnown (fields_of parts.now) }
    ensures { number_in result ≡ spec.immediate_by (spec.has spec.is_one row.now) (fields_of parts.now) }
{
    if has_one(row) {
        number_value(1)
    } else {
        value_of(parts.immediate)
    }
}

/// The instruction. Memory is taken for an address from rip and for a branch target: these are `.`, which
/// is the first byte of the instruction, and a number more.
pub(crate) fn insn_of(alloc: Global, front: &Front) -> Result<Insn<'static>, NoMemory>
    requires of_row { IsOfRow front.now }
    ensures { IfOk result (λ insn. shown_insn insn ≡ meaning front.now.row.now (fields_of front.now.parts)) }
{
    let row = front.row;
    let parts = &front.parts;
    let rex = has_rex(row, parts);
    let one = slot_by(rex, parts, row.first);
    let other = slot_by(rex, parts, row.second);
    let turned = turns(row, one, other);
    let first = either(turned, other, one);
    let second = either(turned, one, other);
    let third = slot_by(rex, parts, row.third);
    let address = address_by(parts);
    let immediate = immediate_of(row, parts);
    let displacement = displacement_of(alloc, front.len, row, parts)?;
    Ok(Insn {
        name: row.name,
        size: row.size,
        prefix: parts.prefix,
        first,
        second,
        third,
        address,
        immediate,
        displacement,
    })
}
