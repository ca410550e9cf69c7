//! The operands of an instruction, one after the other.

ghost use Rattle.std.specs.Prelude.{◌≡◌, ◌≤◌, false, map, length, IfOk};
ghost use Rattle.asm_base.specs.Tokens.{spelled};
ghost use Rattle.att_operands.specs.OperandTexts.{OperandText, register, operand_at, IsOperandOf};
ghost use Rattle.att_operands.specs.Values.{ValueText};
ghost use Rattle.att_insns.specs.InsnTexts.{InsnText, IsInsnOf, with_operand, text_of, HasTexts};
ghost use Rattle.att_insns.specs.Reading.{Makes, Puts, operands_at, with_all};

use crate::slots::{has_displacement, has_immediate};
use asm_base::{NoMemory, Token};
use att_operands::{
    FoundOperand, OperandCause, OperandFault, ReadOperand, bare_memory, displaced_memory,
    hold_value, read_operand, whole_immediate, whole_register,
};
use std::alloc::Global;
use x86_insn::{Insn, Reg, Slot};

/// The operands move one place on, and another stands first.
#[inline(always)]
fn lead(insn: &mut Insn, first: Slot)
    ensures { insn.new
        ≡ record insn.old { first = first; second = insn.old.first; third = insn.old.second } }
{
    insn.third = insn.second;
    insn.second = insn.first;
    insn.first = first;
}

/// The operand stands before those that were written before it.
#[inline(always)]
fn put_text<'a>(
    alloc: Global,
    insn: &mut Insn<'a>,
    operand: ReadOperand<'a>,
) -> Result<(), NoMemory>
    ensures { IfOk result (λ _. (i d : ValueText) (text : OperandText) → HasTexts insn.old i d
        → IsOperandOf operand.entry text
        → IsInsnOf insn.new (with_operand text (text_of insn.old i d))) }
{
    match operand {
        ReadOperand::Register(reg) => {
            lead(insn, Slot::Register(reg));
            Ok(())
        }
        ReadOperand::Immediate(value) => {
            let there = has_immediate(insn.first, insn.second);
            lead(insn, Slot::Immediate);
            hold_value(alloc, there, &mut insn.immediate, value)?;
            Ok(())
        }
        ReadOperand::Memory(address, displacement) => {
            let there = has_displacement(insn.first, insn.second);
            lead(insn, Slot::Memory);
            insn.address = address;
            hold_value(alloc, there, &mut insn.displacement, displacement)?;
            Ok(())
        }
        ReadOperand::Target(value) => {
            let there = has_displacement(insn.first, insn.second);
            lead(insn, Slot::Target);
            hold_value(alloc, there, &mut insn.displacement, value)?;
            Ok(())
        }
    }
}

/// The same of an instruction that has a text.
#[inline(always)]
fn put<'a>(alloc: Global, insn: &mut Insn<'a>, operand: ReadOperand<'a>) -> Result<(), NoMemory>
    ensures { IfOk result (λ _. (due : InsnText) (text : OperandText) → IsInsnOf insn.old due
        → IsOperandOf operand.entry text → IsInsnOf insn.new (with_operand text due)) }
{
    put_text(alloc, insn, operand)?;
    Ok(())
}

/// A register stands before the operands that were written before it.
#[inline(always)]
fn put_register(insn: &mut Insn, reg: Reg)
    ensures { (due : InsnText) → IsInsnOf insn.old due
        → IsInsnOf insn.new (with_operand (register reg) due) }
{
    lead(insn, Slot::Register(reg));
}

/// Any operand at this place stands before those that were written before it; the index of the
/// first token behind it.
#[inline(never)]
fn put_any<'a>(
    alloc: Global,
    tokens: &[Token<'a>],
    at: usize,
    is_branch: bool,
    insn: &mut Insn<'a>,
) -> Result<usize, OperandFault>
    ensures value { (due : InsnText) → IsInsnOf insn.old due
        → Puts insn.new result due (operand_at is_branch (map spelled tokens.now) at) }
    ensures within { IfOk result (λ next. next ≤ length tokens.now) }
{
    match read_operand(alloc, tokens, at, is_branch) {
        Ok(FoundOperand { operand, next }) => {
            put(alloc, insn, operand)?;
            Ok(next)
        }
        Err(refusal) => Err(refusal),
    }
}

/// The same of an operand that is no branch, with a short way for memory.
#[inline(always)]
fn put_memory<'a>(
    alloc: Global,
    tokens: &[Token<'a>],
    at: usize,
    insn: &mut Insn<'a>,
) -> Result<usize, OperandFault>
    ensures value { (due : InsnText) → IsInsnOf insn.old due
        → Puts insn.new result due (operand_at false (map spelled tokens.now) at) }
    ensures within { IfOk result (λ next. next ≤ length tokens.now) }
{
    match displaced_memory(tokens, at) {
        Some(FoundOperand { operand, next }) => {
            put(alloc, insn, operand)?;
            Ok(next)
        }
        None => match bare_memory(tokens, at) {
            Some(FoundOperand { operand, next }) => {
                put(alloc, insn, operand)?;
                Ok(next)
            }
            None => put_any(alloc, tokens, at, false, insn),
        },
    }
}

/// The same, with a short way for immediates.
#[inline(never)]
fn put_usual<'a>(
    alloc: Global,
    tokens: &[Token<'a>],
    at: usize,
    insn: &mut Insn<'a>,
) -> Result<usize, OperandFault>
    ensures value { (due : InsnText) → IsInsnOf insn.old due
        → Puts insn.new result due (operand_at false (map spelled tokens.now) at) }
    ensures within { IfOk result (λ next. next ≤ length tokens.now) }
{
    match whole_immediate(tokens, at) {
        Some(FoundOperand { operand, next }) => {
            put(alloc, insn, operand)?;
            Ok(next)
        }
        None => put_memory(alloc, tokens, at, insn),
    }
}

/// The same of any operand, with a short way for registers.
#[inline(always)]
fn put_operand<'a>(
    alloc: Global,
    tokens: &[Token<'a>],
    at: usize,
    is_branch: bool,
    insn: &mut Insn<'a>,
) -> Result<usize, OperandFault>
    ensures value { (due : InsnText) → IsInsnOf insn.old due
        → Puts insn.new result due (operand_at is_branch (map spelled tokens.now) at) }
    ensures within { IfOk result (λ next. next ≤ length tokens.now) }
{
    if is_branch {
        return put_any(alloc, tokens, at, is_branch, insn);
    }
    match whole_register(tokens, at) {
        Some(reg) => {
            put_register(insn, reg);
            Ok(at + 2)
        }
        None => put_usual(alloc, tokens, at, insn),
    }
}

/// The last operand that may stand, at this place.
#[inline(always)]
fn put_last<'a>(
    alloc: Global,
    tokens: &[Token<'a>],
    at: usize,
    is_branch: bool,
    insn: &mut Insn<'a>,
) -> Result<(), OperandFault>
    ensures { (due : InsnText) → IsInsnOf insn.old due
        → Makes insn.new result (operands_at 1 is_branch (map spelled tokens.now) at due) }
{
    match put_operand(alloc, tokens, at, is_branch, insn) {
        Ok(next) => if next < tokens.len() {
            Err(OperandFault::Fault(OperandCause::BadOperand))
        } else {
            Ok(())
        },
        Err(refusal) => Err(refusal),
    }
}

/// The one or two operands from this place on.
#[inline(always)]
fn put_two<'a>(
    alloc: Global,
    tokens: &[Token<'a>],
    at: usize,
    is_branch: bool,
    insn: &mut Insn<'a>,
) -> Result<(), OperandFault>
    ensures { (due : InsnText) → IsInsnOf insn.old due
        → Makes insn.new result (operands_at 2 is_branch (map spelled tokens.now) at due) }
{
    match put_operand(alloc, tokens, at, is_branch, insn) {
        Ok(next) => if next < tokens.len() {
            put_last(alloc, tokens, next + 1, is_branch, insn)
        } else {
            Ok(())
        },
        Err(refusal) => Err(refusal),
    }
}

/// The one to three operands from this place on.
#[inline(always)]
fn put_three<'a>(
    alloc: Global,
    tokens: &[Token<'a>],
    at: usize,
    is_branch: bool,
    insn: &mut Insn<'a>,
) -> Result<(), OperandFault>
    ensures { (due : InsnText) → IsInsnOf insn.old due
        → Makes insn.new result (operands_at 3 is_branch (map spelled tokens.now) at due) }
{
    match put_operand(alloc, tokens, at, is_branch, insn) {
        Ok(next) => if next < tokens.len() {
            put_two(alloc, tokens, next + 1, is_branch, insn)
        } else {
            Ok(())
        },
        Err(refusal) => Err(refusal),
    }
}

/// All operands from this place on.
#[inline(always)]
#[tactic(auto, unfolding(crate::specs::Reading::with_all))]
pub(crate) fn put_all<'a>(
    alloc: Global,
    tokens: &[Token<'a>],
    at: usize,
    is_branch: bool,
    insn: &mut Insn<'a>,
) -> Result<(), OperandFault>
    ensures { (due : InsnText) → IsInsnOf insn.old due
        → Makes insn.new result (with_all is_branch (map spelled tokens.now) at due) }
{
    if at < tokens.len() {
        put_three(alloc, tokens, at, is_branch, insn)
    } else {
        Ok(())
    }
}
