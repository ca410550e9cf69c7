//! Where values stand that are not known now.

ghost use Rattle.std.specs.Prelude.{◌≡◌, ◌-◌, length};
ghost use Rattle.x86_insn.specs.Views.{seen_at, view_of};
ghost use Rattle.x86_table.specs.Fields.{located};
ghost use Rattle.x86_parts.specs.Filling.{moved_field, kind_of, held_field, in_memory, holds_number, position_by};
ghost use Rattle.x86_parts.specs.Keys.{immediate_length};

use crate::encoded::{Field, Position};
use crate::immediates::immediate_length;
use x86_insn::{FieldKind, Insn, Slot, Values};
use x86_table::{Immediate, Place};

/// Whether an operand is in memory.
fn in_memory(slot: Slot, insn: &Insn, values: &Values) -> bool
    ensures { result ≡ in_memory (seen_at insn.now values.now slot) }
{
    match slot {
        Slot::Memory => true,
        _ => false,
    }
}

/// Whether an operand is an immediate or a branch target.
fn holds_number(slot: Slot, insn: &Insn, values: &Values) -> bool
    ensures { result ≡ holds_number (seen_at insn.now values.now slot) }
{
    match slot {
        Slot::Immediate => true,
        Slot::Target => true,
        _ => false,
    }
}

/// The first position that passes, or the third.
fn position_by(is_first: bool, is_second: bool) -> Position
    ensures { result ≡ position_by is_first is_second }
{
    if is_first {
        Position::First
    } else if is_second {
        Position::Second
    } else {
        Position::Third
    }
}

/// The field of a displacement.
fn moved_field(at: u8, position: Position, place: Place, held: Option<u64>) -> Option<Field>
    ensures { result ≡ moved_field at position (located held place) }
{
    let kind = match place {
        Place::Absent => return None,
        Place::Direct(_) => return None,
        Place::Rip => FieldKind::Address,
        Place::Bare(_) => FieldKind::Signed,
        Place::Based(_, _, _, _) => FieldKind::Signed,
    };
    match held {
        Some(_) => None,
        None => Some(Field {
            at,
            size: 4,
            kind,
            position,
        }),
    }
}

/// How an immediate or a distance stands.
fn kind_of(immediate: Immediate) -> FieldKind
    ensures { result ≡ kind_of immediate }
{
    match immediate {
        Immediate::Sext16 | Immediate::Sext32 | Immediate::Sext64 | Immediate::LongSext => {
            FieldKind::Signed
        }
        Immediate::Rel8 | Immediate::Short | Immediate::Rel32 => FieldKind::Branch,
        _ => FieldKind::Plain,
    }
}

/// The field of the displacement of bytes of this length.
pub fn displacement_field(
    length: u8,
    immediate: Immediate,
    place: Place,
    held: Option<u64>,
    insn: &Insn,
    values: &Values,
) -> Option<Field>
    ensures { let view = view_of insn.now values.now in
        let here = position_by (in_memory view.first) (in_memory view.second) in
        result ≡ moved_field (length - immediate_length immediate - 4) here (located held place) }
{
    let at = length
        .saturating_sub(immediate_length(immediate))
        .saturating_sub(4);
    match held {
        Some(_) => None,
        None => {
            let is_first = in_memory(insn.first, insn, values);
            let is_second = in_memory(insn.second, insn, values);
            moved_field(at, position_by(is_first, is_second), place, held)
        }
    }
}

/// The field of the immediate or the distance of bytes of this length.
pub fn immediate_field(
    length: u8,
    immediate: Immediate,
    held: Option<u64>,
    insn: &Insn,
    values: &Values,
) -> Option<Field>
    ensures { let view = view_of insn.now values.now in
        let here = position_by (holds_number view.first) (holds_number view.second) in
        result ≡ held_field (length - immediate_length immediate) here immediate held }
{
    match held {
        Some(_) => None,
        None => {
            let size = immediate_length(immediate);
            let is_first = holds_number(insn.first, insn, values);
            let is_second = holds_number(insn.second, insn, values);
            Some(Field {
                at: length.saturating_sub(size),
                size,
                kind: kind_of(immediate),
                position: position_by(is_first, is_second),
            })
        }
    }
}
