//! Whether a row shows an instruction of fields.

ghost use Rattle.std.specs.Prelude.{◌≡◌, Some, length};
ghost use Rattle.x86_insn.specs.Views.{absent, register, immediate as shown_immediate, target, seen_at, view_of};
ghost use Rattle.x86_table.specs.Bytes.{has_rex, bytes_of};
ghost use Rattle.x86_table.specs.Fields.{fields_of};
ghost use Rattle.x86_table.specs.Reads.{class_shown, from_start, memory_shown, place_shown, shown};
ghost use Rattle.x86_parts.specs.Building.{same_value, segment_number, same_base, same_index, same_operand, shows};
ghost use Rattle.x86_parts.specs.Codes.{class_number, last_of, reduced_if, plain_immediate, plain_target, plain_memory, normal, named};

use x86_insn::{Base, Class, Index, Insn, Mnemonic, Segment, Slot, Values};
use x86_parts::{is_byte, is_middle, last_of};
use x86_table::{Immediate, Parts, Pattern, Place, Row};

/// Classes by numbers.
pub fn class_number(class: Class) -> u8
    ensures { result ≡ class_number class }
{
    match class {
        Class::Byte => 0,
        Class::High => 1,
        Class::Word => 2,
        Class::Long => 3,
        Class::Quad => 4,
        Class::Xmm => 5,
    }
}

/// Segments by numbers.
fn segment_number(segment: Option<Segment>) -> u8
    ensures { result ≡ segment_number segment }
{
    match segment {
        None => 0,
        Some(Segment::Fs) => 1,
        Some(Segment::Gs) => 2,
    }
}

/// Whether both values are known and equal, or not known.
fn same_value(one: Option<u64>, other: Option<u64>) -> bool
    ensures { result ≡ same_value one other }
{
    match one {
        None => match other {
            None => true,
            Some(_) => false,
        },
        Some(value) => match other {
            None => false,
            Some(held) => value == held,
        },
    }
}

/// Whether two bases are equal.
fn same_base(one: Base, other: Base) -> bool
    ensures { result ≡ same_base one other }
{
    match one {
        Base::Absent => match other {
            Base::Absent => true,
            _ => false,
        },
        Base::Rip => match other {
            Base::Rip => true,
            _ => false,
        },
        Base::Of(number) => match other {
            Base::Of(held) => number == held,
            _ => false,
        },
    }
}

/// Whether two indices are equal.
fn same_index(one: Index, other: Index) -> bool
    ensures { result ≡ same_index one other }
{
    match one {
        Index::Absent => match other {
            Index::Absent => true,
            _ => false,
        },
        Index::By(number, scale) => match other {
            Index::Absent => false,
            Index::By(held, by) => number == held && scale == by,
        },
    }
}

/// The class of a register, by whether REX stands.
fn class_shown(has_rex: bool, class: Class, number: u8) -> Class
    ensures { result ≡ class_shown has_rex class number }
{
    if has_rex {
        class
    } else if is_byte(class) && is_middle(number) {
        Class::High
    } else {
        class
    }
}

/// Whether the operand is this register.
fn is_register(class: Class, number: u8, slot: Slot, insn: &Insn, values: &Values) -> bool
    ensures { result ≡ same_operand (seen_at insn.now values.now slot)
        (register (record { class = class; number = number })) }
{
    match slot {
        Slot::Register(reg) => {
            class_number(reg.class) == class_number(class) && reg.number == number
        }
        _ => false,
    }
}

/// Whether the operand is memory at this address.
fn is_address(
    segment: Option<Segment>,
    base: Base,
    index: Index,
    held: Option<u64>,
    slot: Slot,
    insn: &Insn,
    values: &Values,
) -> bool
    ensures { result ≡ same_operand (plain_memory (seen_at insn.now values.now slot))
        (memory_shown segment base index held) }
{
    match slot {
        Slot::Memory => {
            let own = match insn.address.base {
                Base::Rip => None,
                _ => values.displacement,
            };
            segment_number(insn.address.segment) == segment_number(segment)
                && (same_base(insn.address.base, base)
                    && (same_index(insn.address.index, index) && same_value(own, held)))
        }
        _ => false,
    }
}

/// A place counted from the instruction's first byte.
fn from_start(length: u64, held: Option<u64>) -> Option<u64>
    ensures { result ≡ from_start length held }
{
    match held {
        None => None,
        Some(value) => Some(value.wrapping_add(length)),
    }
}

/// Whether there is no operand.
fn is_absent(slot: Slot, insn: &Insn, values: &Values) -> bool
    ensures { result ≡ same_operand (seen_at insn.now values.now slot) absent }
{
    match slot {
        Slot::Absent => true,
        _ => false,
    }
}

/// Whether a place shows the operand.
fn shows_place(
    has_rex: bool,
    class: Class,
    length: u64,
    parts: &Parts,
    slot: Slot,
    insn: &Insn,
    values: &Values,
) -> bool
    ensures { let p = fields_of parts.now in
        result ≡ same_operand (plain_memory (seen_at insn.now values.now slot))
        (place_shown has_rex class length p.segment p.place) }
{
    match parts.place {
        Place::Absent => is_absent(slot, insn, values),
        Place::Direct(number) => {
            is_register(
                class_shown(has_rex, class, number),
                number,
                slot,
                insn,
                values,
            )
        }
        Place::Rip => is_address(
            parts.segment,
            Base::Rip,
            Index::Absent,
            from_start(length, parts.displacement),
            slot,
            insn,
            values,
        ),
        Place::Bare(index) => is_address(
            parts.segment,
            Base::Absent,
            index,
            parts.displacement,
            slot,
            insn,
            values,
        ),
        Place::Based(base, index, _, _) => is_address(
            parts.segment,
            Base::Of(base),
            index,
            parts.displacement,
            slot,
            insn,
            values,
        ),
    }
}

/// Whether a value modulo the operand size is what an immediate holds.
fn shows_value(immediate: Immediate, own: Option<u64>, held: Option<u64>) -> bool
    ensures { result ≡ same_operand (reduced_if (last_of immediate) own) (shown_immediate held) }
{
    match own {
        None => same_value(None, held),
        Some(value) => {
            let last = last_of(immediate);
            if value <= last {
                same_value(Some(value), held)
            } else if 0xFFFF_FFFF_FFFF_FFFF - last / 2 <= value {
                same_value(Some(value - (0xFFFF_FFFF_FFFF_FFFF - last)), held)
            } else {
                false
            }
        }
    }
}

/// Whether the operand is an immediate that holds this.
fn shows_immediate(
    immediate: Immediate,
    held: Option<u64>,
    slot: Slot,
    insn: &Insn,
    values: &Values,
) -> bool
    ensures { result ≡ same_operand (plain_immediate immediate (seen_at insn.now values.now slot))
        (shown_immediate held) }
{
    match slot {
        Slot::Immediate => shows_value(immediate, values.immediate, held),
        _ => false,
    }
}

/// Whether the operand is the number 1.
fn is_one(slot: Slot, insn: &Insn, values: &Values) -> bool
    ensures { result ≡ same_operand (seen_at insn.now values.now slot) (shown_immediate (Some 1)) }
{
    match slot {
        Slot::Immediate => same_value(values.immediate, Some(1)),
        _ => false,
    }
}

/// Whether the operand is a branch target, and the distance not known.
fn shows_target(length: u64, held: Option<u64>, slot: Slot, insn: &Insn, values: &Values) -> bool
    ensures { result ≡ same_operand (plain_target (seen_at insn.now values.now slot))
        (target (from_start length held)) }
{
    match slot {
        Slot::Target => match held {
            None => true,
            Some(_) => false,
        },
        _ => false,
    }
}

/// Whether an operand of a row shows the instruction's.
#[inline(always)]
fn shows_slot(
    has_rex: bool,
    length: u64,
    parts: &Parts,
    immediate: Immediate,
    pattern: Pattern,
    slot: Slot,
    insn: &Insn,
    values: &Values,
) -> bool
    ensures { let p = fields_of parts.now in
        result ≡ same_operand (normal immediate pattern (seen_at insn.now values.now slot))
        (shown has_rex length p pattern) }
{
    match pattern {
        Pattern::Absent => is_absent(slot, insn, values),
        Pattern::RegMem(class, _) => {
            shows_place(has_rex, class, length, parts, slot, insn, values)
        }
        Pattern::Reg(class) => {
            let shown = class_shown(has_rex, class, parts.reg);
            is_register(shown, parts.reg, slot, insn, values)
        }
        Pattern::Low(class) => {
            let shown = class_shown(has_rex, class, parts.low);
            is_register(shown, parts.low, slot, insn, values)
        }
        Pattern::Accumulator(class) => is_register(class, 0, slot, insn, values),
        Pattern::Cl => is_register(Class::Byte, 1, slot, insn, values),
        Pattern::One => is_one(slot, insn, values),
        Pattern::Immediate => shows_immediate(immediate, parts.immediate, slot, insn, values),
        Pattern::Target => shows_target(length, parts.immediate, slot, insn, values),
    }
}

/// Whether the row shows the instruction of these fields, whose bytes are so many.
#[tactic(auto, unfolding(x86_parts::specs::Building::shows))]
pub fn shows(
    row: &Row,
    parts: &Parts,
    rex: bool,
    total: u64,
    name: Mnemonic,
    insn: &Insn,
    values: &Values,
) -> bool
    requires rex { rex ≡ has_rex row.now (fields_of parts.now) }
    requires total { total ≡ length (bytes_of row.now (fields_of parts.now)) }
    ensures { result ≡ shows row.now (fields_of parts.now) (named name (view_of insn.now values.now)) }
{
    name.0 == row.name.0
        && (insn.size == row.size
            && (shows_slot(
                rex,
                total,
                parts,
                row.immediate,
                row.first,
                insn.first,
                insn,
                values,
            ) && (shows_slot(
                rex,
                total,
                parts,
                row.immediate,
                row.second,
                insn.second,
                insn,
                values,
            ) && shows_slot(
                rex,
                total,
                parts,
                row.immediate,
                row.third,
                insn.third,
                insn,
                values,
            ))))
}
