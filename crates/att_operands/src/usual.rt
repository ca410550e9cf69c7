//! The usual operands, read without what others need. Where one of these finds none, it says nothing.

ghost use Rattle.std.specs.Prelude.{◌≡◌, ◌+◌, ◌≤◌, false, map, length, Ok, IsSome, IfSome};
ghost use Rattle.asm_base.specs.Tokens.{spelled};
ghost use Rattle.att_operands.specs.Values.{GivesSo};
ghost use Rattle.att_operands.specs.OperandTexts.{register, part, operand_at, IsPartRead};

use crate::addresses::{address_at, register_by};
use crate::marks::{begins_value, ends_at, mark_at};
use crate::operands::{FoundOperand, ReadOperand, no_displacement, opens_address};
use crate::registers::NamedRegister;
use crate::values::sum_amount;
use asm_base::Token;
use x86_insn::{Address, Reg, Value};

/// The register that is the whole operand at this place of an instruction that is no branch.
#[inline(always)]
#[tactic(auto, unfolding(crate::specs::OperandTexts::place_at, crate::specs::OperandTexts::operand_at))]
pub fn whole_register(tokens: &[Token], at: usize) -> Option<Reg>
    ensures value { IfSome result (λ reg.
        operand_at false (map spelled tokens.now) at ≡ Ok (part (register reg) (at + 2))) }
    ensures within { IsSome result → at + 2 ≤ length tokens.now }
{
    if mark_at(tokens, at) != b'%' {
        return None;
    }
    match register_by(tokens, at + 1) {
        Some(NamedRegister::Plain(reg)) => if ends_at(tokens, at + 2) {
            Some(reg)
        } else {
            None
        },
        _ => None,
    }
}

/// The immediate of one token that is the whole operand at this place.
#[inline(always)]
pub fn whole_immediate<'a>(tokens: &[Token<'a>], at: usize) -> Option<FoundOperand<'a>>
    ensures value { IfSome result (λ found.
        GivesSo IsPartRead (Ok found) (operand_at false (map spelled tokens.now) at)) }
    ensures within { IfSome result (λ found. found.next ≤ length tokens.now) }
{
    if mark_at(tokens, at) != b'$' {
        return None;
    }
    if tokens.len() - at < 2 {
        return None;
    }
    if !ends_at(tokens, at + 2) {
        return None;
    }
    let found = sum_amount(tokens, at + 1, at + 2)?;
    Some(FoundOperand {
        operand: ReadOperand::Immediate(Value {
            amount: found.amount,
            suffix: None,
        }),
        next: found.next,
    })
}

/// The memory at an address alone that is the whole operand at this place.
#[inline(always)]
#[tactic(auto, using(crate::proofs::UsualOperands::bare_memory_is))]
pub fn bare_memory<'a>(tokens: &[Token<'a>], at: usize) -> Option<FoundOperand<'a>>
    ensures value { IfSome result (λ found.
        GivesSo IsPartRead (Ok found) (operand_at false (map spelled tokens.now) at)) }
    ensures within { IfSome result (λ found. found.next ≤ length tokens.now) }
{
    if !opens_address(tokens, at) {
        return None;
    }
    let place = address_at(tokens, at + 1)?;
    if !ends_at(tokens, place.next) {
        return None;
    }
    let address = Address {
        segment: None,
        base: place.base,
        index: place.index,
    };
    Some(FoundOperand {
        operand: ReadOperand::Memory(address, no_displacement()),
        next: place.next,
    })
}

/// The memory at an address behind a displacement of one token that is the whole operand at this
/// place.
#[inline(always)]
#[tactic(auto, using(crate::proofs::UsualOperands::displaced_memory_is))]
pub fn displaced_memory<'a>(tokens: &[Token<'a>], at: usize) -> Option<FoundOperand<'a>>
    ensures value { IfSome result (λ found.
        GivesSo IsPartRead (Ok found) (operand_at false (map spelled tokens.now) at)) }
    ensures within { IfSome result (λ found. found.next ≤ length tokens.now) }
{
    if !begins_value(tokens, at) {
        return None;
    }
    if mark_at(tokens, at + 1) != b'(' {
        return None;
    }
    if opens_address(tokens, at) {
        return None;
    }
    let found = sum_amount(tokens, at, at + 1)?;
    let place = address_at(tokens, at + 2)?;
    if !ends_at(tokens, place.next) {
        return None;
    }
    let address = Address {
        segment: None,
        base: place.base,
        index: place.index,
    };
    Some(FoundOperand {
        operand: ReadOperand::Memory(
            address,
            Value {
                amount: found.amount,
                suffix: None,
            },
        ),
        next: place.next,
    })
}
