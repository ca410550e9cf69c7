//! Instructions as sections hold them: the forms of their values, the fields over their bytes, and faults.

ghost use Rattle.std.specs.Prelude.{◌≡◌, ◌&&◌, ◌==◌, ◌<◌, ◌^◌, IfOk};
ghost use Rattle.x86_insn.specs.Knowing.{if_known};
ghost use Rattle.asm_expr.specs.Linear.{value_of};
ghost use Rattle.asm_place.specs.Coding.{operand_fault, code_fault, is_bare, is_target, is_absent, jump_named, shape_of, field_size, from_own_place, held_form, code_field};

use asm_base::NoMemory;
use asm_expr::{Linear, plus_times, symbol_form};
use asm_frags::{FieldRole, FieldSize, own_place};
use asm_operands::PlaceCause;
use att_operands::OperandCause;
use item_bytes::{Condition, condition_of};
use std::alloc::Global;
use x86_encode::{EncodeFault, Field};
use x86_insn::{FieldKind, Insn, Prefix, Slot, Suffix};
use x86_table::mnemonics::integers::{JG, JMP, JO};

/// The forms of an instruction's values where it stands.
#[derive(Drop)]
pub(crate) struct InsnForms {
    pub(crate) immediate: Linear,
    pub(crate) displacement: Linear,
}

/// A field over the bytes of an instruction: how many of them stand before it, and what it holds.
#[derive(Drop)]
pub(crate) struct CodeField {
    pub(crate) at: u8,
    pub(crate) size: FieldSize,
    pub(crate) role: FieldRole,
    pub(crate) form: Linear,
}

/// A fault of the operands, as one of the statement.
pub(crate) fn operand_fault(cause: OperandCause) -> PlaceCause
    ensures { result ≡ operand_fault cause }
{
    match cause {
        OperandCause::UnknownMnemonic => PlaceCause::UnknownMnemonic,
        OperandCause::BadExpression => PlaceCause::BadExpression,
        OperandCause::NumberTooWide => PlaceCause::NumberTooWide,
        OperandCause::ExpressionTooDeep => PlaceCause::ExpressionTooDeep,
        OperandCause::BadOperand => PlaceCause::BadOperand,
        OperandCause::UnknownOperandSize => PlaceCause::UnknownOperandSize,
    }
}

/// Why there are no bytes, as a fault of the statement.
pub(crate) fn code_fault(cause: EncodeFault) -> PlaceCause
    ensures { result ≡ code_fault cause }
{
    match cause {
        EncodeFault::ValueNotKnown => PlaceCause::ValueNotKnown,
        EncodeFault::NoSuchForm => PlaceCause::NoSuchForm,
        EncodeFault::OutOfRange => PlaceCause::OutOfRange,
    }
}

/// The size of a field of so many bytes.
pub(crate) fn field_size(bytes: u8) -> FieldSize
    ensures { result ≡ field_size bytes }
{
    match bytes {
        1 => FieldSize::One,
        2 => FieldSize::Two,
        8 => FieldSize::Eight,
        _ => FieldSize::Four,
    }
}

/// The condition of a mnemonic, or none, where it is that of a jump.
fn jump_named(name: u16) -> Option<Option<Condition>>
    ensures { result ≡ jump_named name }
{
    if name == JMP {
        return Some(None);
    }
    if name < JO || name > JG {
        return None;
    }
    match condition_of((name - JO) as u8) {
        Some(condition) => Some(Some(condition)),
        None => None,
    }
}

/// Whether the instruction has 64 bits, no prefix, and a branch target alone.
fn leads_to_target(insn: &Insn) -> bool
    ensures { result ≡ (is_bare insn.now.«prefix» && ((insn.now.size == 64)
        && (is_target insn.now.first && (is_absent insn.now.second && is_absent insn.now.third)))) }
{
    matches!(insn.prefix, Prefix::Absent)
        && insn.size == 64
        && matches!(insn.first, Slot::Target)
        && matches!(insn.second, Slot::Absent)
        && matches!(insn.third, Slot::Absent)
}

/// The condition of a direct jump, or none, if the instruction is one.
pub(crate) fn direct_jump(insn: &Insn) -> Option<Option<Condition>>
    ensures { result ≡ (shape_of insn.now).jump }
{
    if leads_to_target(insn) {
        jump_named(insn.name.0)
    } else {
        None
    }
}

/// A form less the place of the field that holds it.
#[inline(always)]
pub(crate) fn from_own_place(alloc: Global, form: Linear) -> Result<Linear, NoMemory>
    ensures { IfOk result (λ made. made ≡ from_own_place form) }
{
    Ok(plus_times(form, u64::MAX, &symbol_form(alloc, own_place())?)?)
}

/// The form that a field of this kind holds: that of a distance is less the place of the field.
pub(crate) fn held_form(alloc: Global, kind: FieldKind, form: Linear) -> Result<Linear, NoMemory>
    ensures { IfOk result (λ made. made ≡ held_form kind form) }
{
    match kind {
        FieldKind::Plain | FieldKind::Signed | FieldKind::Number => Ok(form),
        FieldKind::Address | FieldKind::Branch => from_own_place(alloc, form),
    }
}

/// The field, in an instruction of so many bytes, that holds this form with this suffix.
pub(crate) fn code_field(
    alloc: Global,
    bytes: usize,
    field: Field,
    suffix: Option<Suffix>,
    form: Linear,
) -> Result<CodeField, NoMemory>
    requires { bytes < 2 ^ 8 }
    ensures { IfOk result (λ made. made ≡ code_field bytes field suffix form) }
{
    let end = field.at as usize + field.size as usize;
    Ok(CodeField {
        at: field.at,
        size: field_size(field.size),
        role: FieldRole {
            kind: field.kind,
            suffix,
            behind: bytes.saturating_sub(end) as u8,
        },
        form: held_form(alloc, field.kind, form)?,
    })
}

/// The value of a form, if no symbols are left in it.
pub(crate) fn known(form: &Linear) -> Option<u64>
    ensures { result ≡ if_known (value_of form.now) }
{
    if form.terms().is_empty() {
        Some(form.constant())
    } else {
        None
    }
}
