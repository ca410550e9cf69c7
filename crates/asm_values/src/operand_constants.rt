//! One to three operands that are numbers alone: their values, without trees and forms.

ghost use Rattle.std.specs.Prelude.{map};
ghost use Rattle.asm_base.specs.Tokens.{spelled};
ghost use Rattle.asm_operands.specs.OperandParts.{operands_left};
ghost use Rattle.asm_values.specs.ConstantOperands.{FindsFirst, FindsNext, FindsConstants, FindsOnlyNumber};

use asm_base::Token;
use asm_operands::{Operands, UpToThree, constant_operand, lone_constant};

/// The value of the next operand, which has to be there.
#[inline(always)]
fn first_constant(operands: &mut Operands) -> Option<u64>
    ensures { FindsFirst (operands_left operands.old) (operands_left operands.new) result }
{
    constant_operand(operands.next()?)
}

/// The number that the only operand is, of any tokens. None says nothing of the operands.
#[inline(never)]
fn long_number(tokens: &[Token]) -> Option<u64>
    ensures { FindsOnlyNumber (map spelled tokens.now) result }
{
    let mut operands = Operands::new(tokens);
    let value = first_constant(&mut operands)?;
    match operands.next() {
        None => Some(value),
        Some(_) => None,
    }
}

/// The number that the only operand is: most are one token. None says nothing of the operands.
#[inline(always)]
pub fn only_number(tokens: &[Token]) -> Option<u64>
    ensures { FindsOnlyNumber (map spelled tokens.now) result }
{
    match lone_constant(tokens) {
        Some(value) => Some(value),
        None => long_number(tokens),
    }
}

/// The value of the next operand, which may be missing, or empty, where one may be there.
#[inline(always)]
fn next_constant_if(may: bool, operands: &mut Operands) -> Option<Option<u64>>
    ensures { FindsNext may (operands_left operands.old) (operands_left operands.new) result }
{
    if !may {
        return Some(None);
    }
    match operands.next() {
        None => Some(None),
        Some(operand) => {
            if operand.is_empty() {
                return Some(None);
            }
            Some(Some(constant_operand(operand)?))
        }
    }
}

/// The values of operands that are all numbers, or none where one of them is anything else.
pub fn constant_operands(most: usize, operands: Operands) -> Option<UpToThree<u64>>
    ensures { FindsConstants most (operands_left operands.entry) result }
{
    let mut rest = operands;
    let first = first_constant(&mut rest)?;
    let second = next_constant_if(most >= 2, &mut rest)?;
    let third = next_constant_if(most >= 3, &mut rest)?;
    match rest.next() {
        None => Some(UpToThree {
            first,
            second,
            third,
        }),
        Some(_) => None,
    }
}
