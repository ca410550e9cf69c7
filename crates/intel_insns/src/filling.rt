//! The operands of an instruction, one after the other.

ghost use Rattle.std.specs.Prelude.{◌≡◌, ◌≤◌, map, length, IfOk};
ghost use Rattle.asm_base.specs.Tokens.{spelled};
ghost use Rattle.att_operands.specs.Values.{ValueText};
ghost use Rattle.att_operands.specs.OperandTexts.{OperandText, register, IsOperandOf};
ghost use Rattle.att_insns.specs.InsnTexts.{InsnText, IsInsnOf, text_of, HasTexts};
ghost use Rattle.intel_operands.specs.OperandTexts.{operand_at};
ghost use Rattle.intel_insns.specs.InsnTexts.{FilledText, followed_by, with_text, bits_with, IsFilled};
ghost use Rattle.intel_insns.specs.Reading.{Fills, Puts, operands_at, with_all};

use asm_base::{NoMemory, Token};
use att_insns::{has_displacement, has_immediate, is_absent};
use att_operands::{OperandCause, OperandFault, ReadOperand, hold_value};
use intel_operands::{
    FoundOperand, ends_at, read_operand, whole_memory, whole_register, whole_value,
};
use std::alloc::Global;
use x86_insn::{Insn, Reg, Slot};

/// How many bits of memory are said so far, and the index of the first token behind an operand.
#[derive(Clone, Copy)]
pub(crate) struct OperandEnd {
    pub bits: u8,
    pub next: usize,
}

/// An operand behind the others.
#[inline(always)]
fn follow(insn: &mut Insn, last: Slot)
    ensures behind { (i d : ValueText)
        → text_of insn.new i d ≡ followed_by last (text_of insn.old i d) }
    ensures values { (i d : ValueText) → HasTexts insn.old i d → HasTexts insn.new i d }
{
    if is_absent(insn.first) {
        insn.first = last;
    } else if is_absent(insn.second) {
        insn.second = last;
    } else {
        insn.third = last;
    }
}

/// The operand stands behind those that were written before it.
#[inline(always)]
fn put_text<'a>(
    alloc: Global,
    insn: &mut Insn<'a>,
    operand: ReadOperand<'a>,
) -> Result<(), NoMemory>
    ensures { IfOk result (λ _. (i d : ValueText) (text : OperandText) → HasTexts insn.old i d
        → IsOperandOf operand.entry text
        → IsInsnOf insn.new (with_text text (text_of insn.old i d))) }
{
    match operand {
        ReadOperand::Register(reg) => {
            follow(insn, Slot::Register(reg));
            Ok(())
        }
        ReadOperand::Immediate(value) => {
            let there = has_immediate(insn.first, insn.second);
            follow(insn, Slot::Immediate);
            hold_value(alloc, there, &mut insn.immediate, value)?;
            Ok(())
        }
        ReadOperand::Memory(address, displacement) => {
            let there = has_displacement(insn.first, insn.second);
            follow(insn, Slot::Memory);
            insn.address = address;
            hold_value(alloc, there, &mut insn.displacement, displacement)?;
            Ok(())
        }
        ReadOperand::Target(value) => {
            let there = has_displacement(insn.first, insn.second);
            follow(insn, Slot::Target);
            hold_value(alloc, there, &mut insn.displacement, value)?;
            Ok(())
        }
    }
}

/// The same of an instruction that has a text.
#[inline(always)]
fn put<'a>(alloc: Global, insn: &mut Insn<'a>, operand: ReadOperand<'a>) -> Result<(), NoMemory>
    ensures { IfOk result (λ _. (due : InsnText) (text : OperandText) → IsInsnOf insn.old due
        → IsOperandOf operand.entry text → IsInsnOf insn.new (with_text text due)) }
{
    put_text(alloc, insn, operand)?;
    Ok(())
}

/// A register stands behind the operands that were written before it.
#[inline(always)]
fn put_register(insn: &mut Insn, reg: Reg)
    ensures { (due : InsnText) → IsInsnOf insn.old due
        → IsInsnOf insn.new (with_text (register reg) due) }
{
    follow(insn, Slot::Register(reg));
}

/// How many bits of memory are said where another operand says so many.
#[inline(always)]
fn bits_with(more: u8, bits: u8) -> u8
    ensures { result ≡ bits_with more bits }
{
    if more == 0 { bits } else { more }
}

/// Any operand at this place stands behind those that were written before it.
#[inline(never)]
fn put_any<'a>(
    alloc: Global,
    tokens: &[Token<'a>],
    at: usize,
    is_branch: bool,
    insn: &mut Insn<'a>,
    bits: u8,
) -> Result<OperandEnd, OperandFault>
    requires { at ≤ length tokens.now }
    ensures value { (due : FilledText) → IsFilled insn.old bits due
        → Puts insn.new result due (operand_at is_branch (map spelled tokens.now) at) }
    ensures within { IfOk result (λ put. put.next ≤ length tokens.now) }
{
    match read_operand(alloc, tokens, at, is_branch) {
        Ok(
            FoundOperand {
                operand,
                bits: more,
                next,
            },
        ) => {
            put(alloc, insn, operand)?;
            Ok(OperandEnd {
                bits: bits_with(more, bits),
                next,
            })
        }
        Err(refusal) => Err(refusal),
    }
}

/// The same, with a short way for values of one token.
#[inline(never)]
fn put_value<'a>(
    alloc: Global,
    tokens: &[Token<'a>],
    at: usize,
    is_branch: bool,
    insn: &mut Insn<'a>,
    bits: u8,
) -> Result<OperandEnd, OperandFault>
    requires { at ≤ length tokens.now }
    ensures value { (due : FilledText) → IsFilled insn.old bits due
        → Puts insn.new result due (operand_at is_branch (map spelled tokens.now) at) }
    ensures within { IfOk result (λ put. put.next ≤ length tokens.now) }
{
    match whole_value(alloc, tokens, at, is_branch) {
        Some(
            FoundOperand {
                operand,
                bits: more,
                next,
            },
        ) => {
            put(alloc, insn, operand)?;
            Ok(OperandEnd {
                bits: bits_with(more, bits),
                next,
            })
        }
        None => put_any(alloc, tokens, at, is_branch, insn, bits),
    }
}

/// The same, with a short way for memory.
#[inline(never)]
fn put_memory<'a>(
    alloc: Global,
    tokens: &[Token<'a>],
    at: usize,
    is_branch: bool,
    insn: &mut Insn<'a>,
    bits: u8,
) -> Result<OperandEnd, OperandFault>
    requires { at ≤ length tokens.now }
    ensures value { (due : FilledText) → IsFilled insn.old bits due
        → Puts insn.new result due (operand_at is_branch (map spelled tokens.now) at) }
    ensures within { IfOk result (λ put. put.next ≤ length tokens.now) }
{
    match whole_memory(alloc, tokens, at) {
        Some(
            FoundOperand {
                operand,
                bits: more,
                next,
            },
        ) => {
            put(alloc, insn, operand)?;
            Ok(OperandEnd {
                bits: bits_with(more, bits),
                next,
            })
        }
        None => put_any(alloc, tokens, at, is_branch, insn, bits),
    }
}

/// The same, with a short way for registers.
#[inline(always)]
fn put_operand<'a>(
    alloc: Global,
    tokens: &[Token<'a>],
    at: usize,
    is_branch: bool,
    insn: &mut Insn<'a>,
    bits: u8,
) -> Result<OperandEnd, OperandFault>
    requires { at ≤ length tokens.now }
    ensures value { (due : FilledText) → IsFilled insn.old bits due
        → Puts insn.new result due (operand_at is_branch (map spelled tokens.now) at) }
    ensures within { IfOk result (λ put. put.next ≤ length tokens.now) }
{
    match whole_register(tokens, at) {
        Some(reg) => {
            put_register(insn, reg);
            Ok(OperandEnd { bits, next: at + 1 })
        }
        None => if ends_at(tokens, at + 1) {
            put_value(alloc, tokens, at, is_branch, insn, bits)
        } else {
            put_memory(alloc, tokens, at, is_branch, insn, bits)
        },
    }
}

/// The last operand that may stand, at this place.
#[inline(always)]
fn put_last<'a>(
    alloc: Global,
    tokens: &[Token<'a>],
    at: usize,
    is_branch: bool,
    insn: &mut Insn<'a>,
    bits: u8,
) -> Result<u8, OperandFault>
    requires { at ≤ length tokens.now }
    ensures { (due : FilledText) → IsFilled insn.old bits due
        → Fills insn.new result (operands_at 1 is_branch (map spelled tokens.now) at due) }
{
    match put_operand(alloc, tokens, at, is_branch, insn, bits) {
        Ok(put) => if put.next < tokens.len() {
            Err(OperandFault::Fault(OperandCause::BadOperand))
        } else {
            Ok(put.bits)
        },
        Err(refusal) => Err(refusal),
    }
}

/// The one or two operands from this place on.
#[inline(always)]
fn put_two<'a>(
    alloc: Global,
    tokens: &[Token<'a>],
    at: usize,
    is_branch: bool,
    insn: &mut Insn<'a>,
    bits: u8,
) -> Result<u8, OperandFault>
    requires { at ≤ length tokens.now }
    ensures { (due : FilledText) → IsFilled insn.old bits due
        → Fills insn.new result (operands_at 2 is_branch (map spelled tokens.now) at due) }
{
    match put_operand(alloc, tokens, at, is_branch, insn, bits) {
        Ok(put) => if put.next < tokens.len() {
            put_last(alloc, tokens, put.next + 1, is_branch, insn, put.bits)
        } else {
            Ok(put.bits)
        },
        Err(refusal) => Err(refusal),
    }
}

/// The one to three operands from this place on.
#[inline(always)]
fn put_three<'a>(
    alloc: Global,
    tokens: &[Token<'a>],
    at: usize,
    is_branch: bool,
    insn: &mut Insn<'a>,
    bits: u8,
) -> Result<u8, OperandFault>
    requires { at ≤ length tokens.now }
    ensures { (due : FilledText) → IsFilled insn.old bits due
        → Fills insn.new result (operands_at 3 is_branch (map spelled tokens.now) at due) }
{
    match put_operand(alloc, tokens, at, is_branch, insn, bits) {
        Ok(put) => if put.next < tokens.len() {
            put_two(alloc, tokens, put.next + 1, is_branch, insn, put.bits)
        } else {
            Ok(put.bits)
        },
        Err(refusal) => Err(refusal),
    }
}

/// All operands from this place on; how many bits of memory they say, or 0.
#[tactic(auto, unfolding(crate::specs::Reading::with_all))]
pub(crate) fn put_all<'a>(
    alloc: Global,
    tokens: &[Token<'a>],
    at: usize,
    is_branch: bool,
    insn: &mut Insn<'a>,
) -> Result<u8, OperandFault>
    ensures { (due : FilledText) → IsFilled insn.old 0 due
        → Fills insn.new result (with_all is_branch (map spelled tokens.now) at due) }
{
    if at < tokens.len() {
        put_three(alloc, tokens, at, is_branch, insn, 0)
    } else {
        Ok(0)
    }
}
