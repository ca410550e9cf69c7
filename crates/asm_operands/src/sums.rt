//! Operands that are one to three numbers, names or places, read without a tree.

ghost use Rattle.std.specs.Prelude.{◌≡◌, map};
ghost use Rattle.asm_base.specs.Tokens.{spelled};
ghost use Rattle.asm_base.specs.declared.tokens.TokenKind.TheVariants.{Digits};
ghost use Rattle.asm_operands.specs.Sums.{FindsLabel, FindsSummand, FindsMinus, FindsAddend, FindsSum, FindsLongSum};

use crate::numbers::leaf;
use asm_base::{Token, TokenKind};
use expr_texts::{all_digits, decimal_number};

/// What one token spells: a number, a name, or the place of the statement.
#[derive(Clone, Copy)]
pub enum Summand<'t, 'a> {
    Number(u64),
    /// The token of a symbol's name, without quotes.
    Name(&'t Token<'a>),
    /// `Nb`: the last label N before this place.
    Back(u64),
    /// `Nf`: the next label N behind this place.
    Next(u64),
    /// `.`: the place of the statement.
    Here,
}

/// What is added to a summand, or taken off, if there is something.
#[derive(Clone, Copy)]
pub enum Addend<'t, 'a> {
    Nothing,
    Plus(Summand<'t, 'a>),
    Minus(Summand<'t, 'a>),
}

/// One or two summands.
#[derive(Clone, Copy)]
pub struct Sum<'t, 'a> {
    pub first: Summand<'t, 'a>,
    pub second: Addend<'t, 'a>,
}

/// A sum with one summand more behind it, if there is one. Few operands have it, so sums are kept
/// apart from it.
#[derive(Clone, Copy)]
pub struct LongSum<'t, 'a> {
    pub front: Sum<'t, 'a>,
    pub third: Addend<'t, 'a>,
}

/// The numeric label that a token of digits is: decimal digits, and a letter behind them.
#[inline(never)]
#[tactic(auto, unfolding(expr_texts::specs::Leaves::digits_leaf))]
fn label<'t, 'a>(digits: &'a [u8]) -> Option<Summand<'t, 'a>>
    ensures { FindsLabel digits.now result }
{
    let end = digits.len().checked_sub(1)?;
    if !all_digits(10, &digits[..end]) {
        return None;
    }
    let number = decimal_number(&digits[..end]).ok()?;
    match digits[end] {
        b'b' => Some(Summand::Back(number)),
        b'f' => Some(Summand::Next(number)),
        _ => None,
    }
}

/// What a token of digits spells: a number or a numeric label.
#[inline(never)]
#[tactic(auto, unfolding(expr_texts::specs::Leaves::leaf_of, expr_texts::specs::Operators::prefix_by))]
fn digits_of<'t, 'a>(token: &'t Token<'a>) -> Option<Summand<'t, 'a>>
    requires { token.now.kind ≡ Digits }
    ensures { FindsSummand (spelled token.now) result }
{
    match leaf(token) {
        Some(number) => Some(Summand::Number(number)),
        None => label(token.bytes),
    }
}

/// What the token spells, if it is a name without quotes or a number.
#[inline(always)]
#[tactic(auto, unfolding(expr_texts::specs::Leaves::leaf_of, expr_texts::specs::Operators::prefix_by))]
fn summand_of<'t, 'a>(token: &'t Token<'a>) -> Option<Summand<'t, 'a>>
    ensures { FindsSummand (spelled token.now) result }
{
    if token.kind == TokenKind::Name {
        if token.bytes.len() == 1 && token.bytes[0] == b'.' {
            return Some(Summand::Here);
        }
        return Some(Summand::Name(token));
    }
    if token.kind != TokenKind::Digits {
        return None;
    }
    digits_of(token)
}

/// Whether the operator is `-`; only `+` and `-` make sums.
#[inline(always)]
#[tactic(auto, unfolding(expr_texts::specs::Operators::operator_by, expr_texts::specs::Operators::operator_byte))]
pub fn minus(token: &Token) -> Option<bool>
    ensures { FindsMinus (spelled token.now) result }
{
    if token.kind != TokenKind::Operator {
        return None;
    }
    match token.bytes {
        [b'+'] => Some(false),
        [b'-'] => Some(true),
        _ => None,
    }
}

/// What the operator and the token behind it add.
#[inline(always)]
fn addend_of<'t, 'a>(operator: &Token, token: &'t Token<'a>) -> Option<Addend<'t, 'a>>
    ensures { FindsAddend (spelled operator.now) (spelled token.now) result }
{
    let minus = minus(operator)?;
    let summand = summand_of(token)?;
    if minus {
        Some(Addend::Minus(summand))
    } else {
        Some(Addend::Plus(summand))
    }
}

/// The sum that an operand is. None says nothing of the operand.
#[inline(always)]
pub fn sum_operand<'t, 'a>(tokens: &'t [Token<'a>]) -> Option<Sum<'t, 'a>>
    ensures { FindsSum (map spelled tokens.now) result }
{
    match tokens {
        [one] => Some(Sum {
            first: summand_of(one)?,
            second: Addend::Nothing,
        }),
        [one, operator, other] => Some(Sum {
            first: summand_of(one)?,
            second: addend_of(operator, other)?,
        }),
        _ => None,
    }
}

/// The sum of up to three summands that an operand is. None says nothing of the operand.
#[inline(always)]
pub fn long_sum_operand<'t, 'a>(tokens: &'t [Token<'a>]) -> Option<LongSum<'t, 'a>>
    ensures { FindsLongSum (map spelled tokens.now) result }
{
    match tokens {
        [one, operator, other, sign, last] => Some(LongSum {
            front: Sum {
                first: summand_of(one)?,
                second: addend_of(operator, other)?,
            },
            third: addend_of(sign, last)?,
        }),
        _ => Some(LongSum {
            front: sum_operand(tokens)?,
            third: Addend::Nothing,
        }),
    }
}
