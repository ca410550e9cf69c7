//! Putting the bytes of instructions, and the fields over them.

ghost use Rattle.std.specs.Prelude.{◌≡◌, ◌∷◌, ◌<◌, ◌^◌, [], slice_range, drop, IfOk};
ghost use Rattle.asm_values.specs.PlacedBy.{placed_by, PlacesBy};
ghost use Rattle.x86_encode.specs.Encoding.{made_coding};
ghost use Rattle.asm_place.specs.Coding.{put_rest, put_held, put_code, shape_of, displacement_field, immediate_field, fields_of, put_coded, put_jump, put_insn};

use crate::codes::{
    CodeField, InsnForms, code_fault, code_field, direct_jump, from_own_place, known,
};
use asm_base::{NoMemory, Pos};
use asm_expr::{Linear, copied_form};
use asm_operands::PlaceFault;
use asm_values::Assembler;
use item_bytes::Condition;
use item_contents::Growth;
use std::alloc::Global;
use x86_encode::{Encoded, Field, encode};
use x86_insn::{FieldKind, Insn, Values};

/// The bytes from a place on.
fn behind(bytes: &[u8], at: usize) -> &[u8]
    ensures { result.now ≡ drop at bytes.now }
{
    if at < bytes.len() { &bytes[at..] } else { &[] }
}

/// The bytes from one place to another.
fn between(bytes: &[u8], from: usize, to: usize) -> &[u8]
    ensures { result.now ≡ slice_range bytes.now from to }
{
    let rest = behind(bytes, from);
    let count = to.saturating_sub(from);
    if count < rest.len() {
        &rest[..count]
    } else {
        rest
    }
}

/// Plain bytes, if there are any.
pub(crate) fn put_rest(assembler: &mut Assembler, pos: Pos, bytes: &[u8]) -> Result<(), PlaceFault>
    ensures placed { PlacesBy (put_rest pos bytes.now) assembler.old assembler.new result }
    ensures kept { assembler.new.notes ≡ assembler.old.notes }
{
    if bytes.is_empty() {
        Ok(())
    } else {
        assembler.put_bytes(pos, bytes)
    }
}

/// The bytes before a field, and the field.
fn put_held(
    assembler: &mut Assembler,
    pos: Pos,
    bytes: &[u8],
    from: usize,
    field: CodeField,
) -> Result<(), PlaceFault>
    ensures placed { PlacesBy (put_held pos bytes.now from field) assembler.old assembler.new result }
    ensures kept { assembler.new.notes ≡ assembler.old.notes }
{
    let CodeField {
        at,
        size,
        role,
        form,
    } = field;
    put_rest(assembler, pos, between(bytes, from, usize::from(at)))?;
    assembler.put_field(pos, size, role, form)
}

/// The bytes of an instruction from a place on, with one field.
#[tactic(auto, unfolding(crate::specs::Coding::put_code))]
fn put_one(
    assembler: &mut Assembler,
    pos: Pos,
    bytes: &[u8],
    from: usize,
    field: CodeField,
) -> Result<(), PlaceFault>
    ensures placed { PlacesBy (put_code pos bytes.now from (field ∷ []))
        assembler.old assembler.new result }
    ensures kept { assembler.new.notes ≡ assembler.old.notes }
{
    let end = usize::from(field.at) + field.size.bytes();
    put_held(assembler, pos, bytes, from, field)?;
    put_rest(assembler, pos, behind(bytes, end))
}

/// The bytes of an instruction with two fields.
#[tactic(auto, unfolding(crate::specs::Coding::put_code))]
fn put_two(
    assembler: &mut Assembler,
    pos: Pos,
    bytes: &[u8],
    one: CodeField,
    other: CodeField,
) -> Result<(), PlaceFault>
    ensures placed { PlacesBy (put_code pos bytes.now 0 (one ∷ other ∷ []))
        assembler.old assembler.new result }
    ensures kept { assembler.new.notes ≡ assembler.old.notes }
{
    let end = usize::from(one.at) + one.size.bytes();
    put_held(assembler, pos, bytes, 0, one)?;
    put_one(assembler, pos, bytes, end, other)
}

/// The field of a displacement.
fn displacement_field(
    alloc: Global,
    bytes: usize,
    insn: &Insn,
    forms: &InsnForms,
    field: Field,
) -> Result<CodeField, NoMemory>
    requires { bytes < 2 ^ 8 }
    ensures { IfOk result (λ made.
        made ≡ displacement_field bytes (shape_of insn.now) forms.now field) }
{
    let form = copied_form(alloc, &forms.displacement)?;
    code_field(alloc, bytes, field, insn.displacement.suffix, form)
}

/// The field of an immediate, or of a branch target.
fn immediate_field(
    alloc: Global,
    bytes: usize,
    insn: &Insn,
    forms: &InsnForms,
    field: Field,
) -> Result<CodeField, NoMemory>
    requires { bytes < 2 ^ 8 }
    ensures { IfOk result (λ made.
        made ≡ immediate_field bytes (shape_of insn.now) forms.now field) }
{
    match field.kind {
        FieldKind::Branch => displacement_field(alloc, bytes, insn, forms, field),
        _ => {
            let form = copied_form(alloc, &forms.immediate)?;
            code_field(alloc, bytes, field, insn.immediate.suffix, form)
        }
    }
}

/// The bytes of an instruction, and the fields over them.
#[inline(never)]
#[tactic(auto, unfolding(crate::specs::Coding::put_code))]
fn put_fields(
    assembler: &mut Assembler,
    pos: Pos,
    insn: &Insn,
    forms: &InsnForms,
    made: &Encoded,
) -> Result<(), PlaceFault>
    ensures placed { PlacesBy (put_code pos made.now.bytes.items 0
        (fields_of (shape_of insn.now) forms.now (made_coding made.now)))
        assembler.old assembler.new result }
    ensures kept { assembler.new.notes ≡ assembler.old.notes }
{
    let alloc = assembler.alloc;
    let bytes = made.bytes.as_slice();
    let length = bytes.len();
    match (made.displacement, made.immediate) {
        (None, None) => put_rest(assembler, pos, bytes),
        (Some(field), None) => {
            let one = displacement_field(alloc, length, insn, forms, field)?;
            put_one(assembler, pos, bytes, 0, one)
        }
        (None, Some(field)) => {
            let one = immediate_field(alloc, length, insn, forms, field)?;
            put_one(assembler, pos, bytes, 0, one)
        }
        (Some(field), Some(last)) => {
            let one = displacement_field(alloc, length, insn, forms, field)?;
            let other = immediate_field(alloc, length, insn, forms, last)?;
            put_two(assembler, pos, bytes, one, other)
        }
    }
}

/// The same: most instructions have no field.
#[inline(always)]
#[tactic(auto, unfolding(crate::specs::Coding::put_code))]
fn put_made(
    assembler: &mut Assembler,
    pos: Pos,
    insn: &Insn,
    forms: &InsnForms,
    made: &Encoded,
) -> Result<(), PlaceFault>
    ensures placed { PlacesBy (put_code pos made.now.bytes.items 0
        (fields_of (shape_of insn.now) forms.now (made_coding made.now)))
        assembler.old assembler.new result }
    ensures kept { assembler.new.notes ≡ assembler.old.notes }
{
    match (made.displacement, made.immediate) {
        (None, None) => put_rest(assembler, pos, made.bytes.as_slice()),
        _ => put_fields(assembler, pos, insn, forms, made),
    }
}

/// The bytes and the fields of an instruction of these forms.
#[inline(always)]
#[tactic(auto, unfolding(crate::specs::Coding::put_coded))]
fn put_coded(
    assembler: &mut Assembler,
    pos: Pos,
    insn: &Insn,
    forms: &InsnForms,
) -> Result<(), PlaceFault>
    ensures placed { PlacesBy (put_coded pos (shape_of insn.now) forms.now)
        assembler.old assembler.new result }
    ensures kept { assembler.new.notes ≡ assembler.old.notes }
{
    let values = Values {
        immediate: known(&forms.immediate),
        displacement: known(&forms.displacement),
    };
    match &encode(insn, &values) {
        Ok(made) => put_made(assembler, pos, insn, forms, made),
        Err(cause) => Err(PlaceFault::Fault(code_fault(*cause))),
    }
}

/// A direct jump, as an item that grows with the distance to its target.
#[inline(always)]
fn put_jump(
    assembler: &mut Assembler,
    pos: Pos,
    condition: Option<Condition>,
    insn: &Insn,
    forms: InsnForms,
) -> Result<(), PlaceFault>
    ensures placed { PlacesBy (put_jump pos condition (shape_of insn.now) forms)
        assembler.old assembler.new result }
    ensures kept { assembler.new.notes ≡ assembler.old.notes }
{
    let form = from_own_place(assembler.alloc, forms.displacement)?;
    assembler.push_growing(pos, Growth::Jump(condition), insn.displacement.suffix, form)
}

/// An instruction of these forms: an item of a direct jump, the bytes and the fields of any other.
#[inline(always)]
#[tactic(auto, unfolding(crate::specs::Coding::put_insn))]
pub(crate) fn put_insn(
    assembler: &mut Assembler,
    pos: Pos,
    insn: &Insn,
    forms: InsnForms,
) -> Result<(), PlaceFault>
    ensures placed { PlacesBy (put_insn pos (shape_of insn.now) forms)
        assembler.old assembler.new result }
    ensures kept { assembler.new.notes ≡ assembler.old.notes }
{
    match direct_jump(insn) {
        Some(condition) => put_jump(assembler, pos, condition, insn, forms),
        None => put_coded(assembler, pos, insn, &forms),
    }
}
