//! Operands that are one or two sums, or a name and a sum: they need no tree.

ghost use Rattle.std.specs.Prelude.{map};
ghost use Rattle.asm_base.specs.Tokens.{spelled};
ghost use Rattle.asm_operands.specs.FewSums.{FindsFewSums, FindsNamedSum, FindsLongSums};

use crate::directive_operands::Operands;
use crate::plain_names::bare_name;
use crate::sums::{LongSum, Sum, long_sum_operand, sum_operand};
use asm_base::Token;

/// One or two sums.
#[derive(Clone, Copy)]
pub enum FewSums<'t, 'a> {
    One(Sum<'t, 'a>),
    Two(Sum<'t, 'a>, Sum<'t, 'a>),
}

/// The sums that one or two operands are. None says nothing of the operands.
#[inline(always)]
pub fn few_sums<'t, 'a>(tokens: &'t [Token<'a>]) -> Option<FewSums<'t, 'a>>
    ensures { FindsFewSums (map spelled tokens.now) result }
{
    let mut operands = Operands::new(tokens);
    let one = sum_operand(operands.next()?)?;
    let Some(operand) = operands.next() else {
        return Some(FewSums::One(one));
    };
    let other = sum_operand(operand)?;
    match operands.next() {
        None => Some(FewSums::Two(one, other)),
        Some(_) => None,
    }
}

/// A name and a sum.
#[derive(Clone, Copy)]
pub struct NamedSum<'t, 'a> {
    pub name: &'a [u8],
    pub sum: Sum<'t, 'a>,
}

/// The name and the sum that two operands are. None says nothing of the operands.
#[inline(always)]
pub fn named_sum<'t, 'a>(tokens: &'t [Token<'a>]) -> Option<NamedSum<'t, 'a>>
    ensures { FindsNamedSum (map spelled tokens.now) result }
{
    let mut operands = Operands::new(tokens);
    let name = bare_name(operands.next()?)?;
    let sum = sum_operand(operands.next()?)?;
    match operands.next() {
        None => Some(NamedSum { name, sum }),
        Some(_) => None,
    }
}

/// One or two sums of up to three summands.
#[derive(Clone, Copy)]
pub enum LongSums<'t, 'a> {
    One(LongSum<'t, 'a>),
    Two(LongSum<'t, 'a>, LongSum<'t, 'a>),
}

/// The sums that one or two operands are. None says nothing of the operands.
#[inline(always)]
pub fn long_sums<'t, 'a>(tokens: &'t [Token<'a>]) -> Option<LongSums<'t, 'a>>
    ensures { FindsLongSums (map spelled tokens.now) result }
{
    let mut operands = Operands::new(tokens);
    let one = long_sum_operand(operands.next()?)?;
    let Some(operand) = operands.next() else {
        return Some(LongSums::One(one));
    };
    let other = long_sum_operand(operand)?;
    match operands.next() {
        None => Some(LongSums::Two(one, other)),
        Some(_) => None,
    }
}
