//! The operands of an instruction: registers, immediates, memory and branch targets.

ghost use Rattle.std.specs.Prelude.{◌≡◌, ◌+◌, ◌<◌, ◌≤◌, length, map, Some, Err, IsTrue, IfOk};
ghost use Rattle.asm_base.specs.declared.refusals.Refusal.TheVariants.{Fault};
ghost use Rattle.att_operands.specs.declared.faults.OperandCause.TheVariants.{BadOperand};
ghost use Rattle.att_operands.specs.declared.registers.NamedRegister.TheVariants as named;
ghost use Rattle.asm_base.specs.Tokens.{spelled};
ghost use Rattle.att_operands.specs.Values.{GivesSo, ValueText, ReadText, IsValueOf, value_at, begun_at};
ghost use Rattle.att_operands.specs.Amounts.{IsValueRead};
ghost use Rattle.att_operands.specs.Addresses.{address_at};
ghost use Rattle.att_operands.specs.OperandTexts.{no_displacement, addressed, displaced, opens_address, memory_at, named_place, place_at, immediate_by, target_at, operand_by, operand_at, IsPartRead};

use crate::addresses::{address_at, register_by};
use crate::faults::{OperandCause, OperandFault};
use crate::marks::{ends_at, mark_at};
use crate::registers::NamedRegister;
use crate::values::{ReadValue, begun_at, value_at};
use asm_base::Token;
use std::alloc::Global;
use x86_insn::{Address, Amount, Base, Index, Reg, Segment, Value};

/// An operand as it is written.
#[derive(Drop)]
pub enum ReadOperand<'a> {
    Register(Reg),
    Immediate(Value<'a>),
    Memory(Address, Value<'a>),
    /// The target of a direct branch.
    Target(Value<'a>),
}

/// An operand, and the index of the first token behind it.
#[derive(Drop)]
pub struct FoundOperand<'a> {
    pub operand: ReadOperand<'a>,
    pub next: usize,
}

/// An operand has no spelling.
fn refused<'a>() -> Result<FoundOperand<'a>, OperandFault>
    ensures { result ≡ Err (Fault BadOperand) }
{
    Err(OperandFault::Fault(OperandCause::BadOperand))
}

/// The displacement of memory that shows none.
#[inline(always)]
#[tactic(auto, unfolding(asm_expr::specs::Linear::linear))]
pub fn no_displacement<'a>() -> Value<'a>
    ensures { IsValueOf result no_displacement }
{
    Value {
        amount: Amount::Number(0),
        suffix: None,
    }
}

/// Memory with this displacement, at the address behind the `(` before this place.
#[inline(always)]
fn addressed<'a>(
    tokens: &[Token<'a>],
    segment: Option<Segment>,
    displacement: Value<'a>,
    at: usize,
) -> Result<FoundOperand<'a>, OperandFault>
    ensures value { (text : ValueText) → IsValueOf displacement.entry text
        → let due = addressed segment text (address_at (map spelled tokens.now) at) in
        GivesSo IsPartRead result due }
    ensures within { IfOk result (λ found. found.next ≤ length tokens.now) }
{
    match address_at(tokens, at) {
        Some(found) => {
            let address = Address {
                segment,
                base: found.base,
                index: found.index,
            };
            Ok(FoundOperand {
                operand: ReadOperand::Memory(address, displacement),
                next: found.next,
            })
        }
        None => refused(),
    }
}

/// Memory with the displacement that was read, and an address if it is written.
#[inline(always)]
#[tactic(auto, unfolding(crate::specs::OperandTexts::displaced))]
fn displaced<'a>(
    tokens: &[Token<'a>],
    segment: Option<Segment>,
    displacement: Value<'a>,
    next: usize,
) -> Result<FoundOperand<'a>, OperandFault>
    requires { next ≤ length tokens.now }
    ensures value { (due : ReadText) → IsValueOf displacement.entry due.text → next ≡ due.next
        → GivesSo IsPartRead result (displaced (map spelled tokens.now) segment due) }
    ensures within { IfOk result (λ found. found.next ≤ length tokens.now) }
{
    if mark_at(tokens, next) == b'(' {
        return addressed(tokens, segment, displacement, next + 1);
    }
    let address = Address {
        segment,
        base: Base::Absent,
        index: Index::Absent,
    };
    Ok(FoundOperand {
        operand: ReadOperand::Memory(address, displacement),
        next,
    })
}

/// Whether the parenthesis of an address stands at this place.
#[inline(always)]
pub(crate) fn opens_address(tokens: &[Token], at: usize) -> bool
    ensures value { result ≡ opens_address (map spelled tokens.now) at }
    ensures within { IsTrue result → at < length tokens.now }
{
    if mark_at(tokens, at) == b'(' {
        let mark = mark_at(tokens, at + 1);
        mark == b'%' || mark == b','
    } else {
        false
    }
}

/// The memory operand at this place.
#[tactic(auto, unfolding(crate::specs::OperandTexts::memory_at))]
fn memory_at<'a>(
    alloc: Global,
    tokens: &[Token<'a>],
    segment: Option<Segment>,
    at: usize,
) -> Result<FoundOperand<'a>, OperandFault>
    ensures value { GivesSo IsPartRead result (memory_at (map spelled tokens.now) segment at) }
    ensures within { IfOk result (λ found. found.next ≤ length tokens.now) }
{
    if opens_address(tokens, at) {
        return addressed(tokens, segment, no_displacement(), at + 1);
    }
    match begun_at(alloc, tokens, at) {
        Ok(ReadValue { value, next }) => displaced(tokens, segment, value, next),
        Err(refusal) => Err(refusal),
    }
}

/// The memory operand in a segment, behind its name.
#[inline(never)]
fn segment_memory<'a>(
    alloc: Global,
    tokens: &[Token<'a>],
    segment: Segment,
    at: usize,
) -> Result<FoundOperand<'a>, OperandFault>
    ensures value { GivesSo IsPartRead result
        (named_place (map spelled tokens.now) (Some (named.Segment segment)) at) }
    ensures within { IfOk result (λ found. found.next ≤ length tokens.now) }
{
    if mark_at(tokens, at) == b':' {
        memory_at(alloc, tokens, Some(segment), at + 1)
    } else {
        refused()
    }
}

/// The register or the memory operand at this place.
#[inline(always)]
#[tactic(auto, unfolding(crate::specs::OperandTexts::place_at))]
fn place_at<'a>(
    alloc: Global,
    tokens: &[Token<'a>],
    at: usize,
) -> Result<FoundOperand<'a>, OperandFault>
    ensures value { GivesSo IsPartRead result (place_at (map spelled tokens.now) at) }
    ensures within { IfOk result (λ found. found.next ≤ length tokens.now) }
{
    if mark_at(tokens, at) == b'%' {
        match register_by(tokens, at + 1) {
            Some(NamedRegister::Plain(reg)) => Ok(FoundOperand {
                operand: ReadOperand::Register(reg),
                next: at + 2,
            }),
            Some(NamedRegister::Segment(segment)) => {
                segment_memory(alloc, tokens, segment, at + 2)
            }
            _ => refused(),
        }
    } else {
        memory_at(alloc, tokens, None, at)
    }
}

/// The immediate behind the `$` before this place.
#[inline(always)]
fn immediate_at<'a>(
    alloc: Global,
    tokens: &[Token<'a>],
    at: usize,
) -> Result<FoundOperand<'a>, OperandFault>
    ensures value { let due = immediate_by (value_at (map spelled tokens.now) at) in
        GivesSo IsPartRead result due }
    ensures within { IfOk result (λ found. found.next ≤ length tokens.now) }
{
    match value_at(alloc, tokens, at) {
        Ok(ReadValue { value, next }) => Ok(FoundOperand {
            operand: ReadOperand::Immediate(value),
            next,
        }),
        Err(refusal) => Err(refusal),
    }
}

/// The branch target at this place.
#[inline(always)]
fn target_at<'a>(
    alloc: Global,
    tokens: &[Token<'a>],
    at: usize,
) -> Result<FoundOperand<'a>, OperandFault>
    ensures value { GivesSo IsPartRead result (target_at (map spelled tokens.now) at) }
    ensures within { IfOk result (λ found. found.next ≤ length tokens.now) }
{
    if opens_address(tokens, at) {
        return refused();
    }
    match begun_at(alloc, tokens, at) {
        Ok(ReadValue { value, next }) => Ok(FoundOperand {
            operand: ReadOperand::Target(value),
            next,
        }),
        Err(refusal) => Err(refusal),
    }
}

/// The operand at this place, of a branch or of another instruction.
#[inline(always)]
fn operand_by<'a>(
    alloc: Global,
    tokens: &[Token<'a>],
    at: usize,
    is_branch: bool,
) -> Result<FoundOperand<'a>, OperandFault>
    ensures value { GivesSo IsPartRead result (operand_by is_branch (map spelled tokens.now) at) }
    ensures within { IfOk result (λ found. found.next ≤ length tokens.now) }
{
    let mark = mark_at(tokens, at);
    if mark == b'$' {
        return immediate_at(alloc, tokens, at + 1);
    }
    if !is_branch {
        return place_at(alloc, tokens, at);
    }
    if mark == b'*' {
        place_at(alloc, tokens, at + 1)
    } else {
        target_at(alloc, tokens, at)
    }
}

/// The operand at this place, behind which a comma or nothing stands.
#[tactic(auto, unfolding(crate::specs::OperandTexts::operand_at))]
pub fn read_operand<'a>(
    alloc: Global,
    tokens: &[Token<'a>],
    at: usize,
    is_branch: bool,
) -> Result<FoundOperand<'a>, OperandFault>
    ensures value { GivesSo IsPartRead result (operand_at is_branch (map spelled tokens.now) at) }
    ensures within { IfOk result (λ found. found.next ≤ length tokens.now) }
{
    match operand_by(alloc, tokens, at, is_branch) {
        Ok(FoundOperand { operand, next }) => {
            if ends_at(tokens, next) {
                Ok(FoundOperand { operand, next })
            } else {
                refused()
            }
        }
        Err(refusal) => Err(refusal),
    }
}
