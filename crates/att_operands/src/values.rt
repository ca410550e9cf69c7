//! The values of operands: an expression, and its suffix.

ghost use Rattle.std.specs.Prelude.{◌≡◌, ◌+◌, ◌^◌, ◌<◌, ◌≤◌, List, true, false, length, map, drop, option_map, IsTrue, IfOk, IfErr, IfSome};
ghost use Rattle.asm_base.specs.declared.refusals.Refusal.TheVariants.{NoMemory};
ghost use Rattle.asm_base.specs.Tokens.{SpelledToken, spelled};
ghost use Rattle.asm_expr.specs.Forms.{signed};
ghost use Rattle.expr_texts.specs.Found.{spelled_from};
ghost use Rattle.expr_texts.specs.Grammar.{operator_follows};
ghost use Rattle.att_operands.specs.Values.{GivesSo, suffixed_name, without_suffix, value_with, value_at, begun_at};
ghost use Rattle.att_operands.specs.Amounts.{FindsAmount, FindsRead, GivesAmount, IsValueRead};

use crate::faults::{OperandCause, OperandFault};
use crate::marks::{begins_value, mark_at};
use crate::suffixes::{NamedSuffix, suffix_at};
use asm_base::{Token, TokenKind};
use asm_operands::{Addend, Sum, Summand, front_constant, single_constant, sum_operand};
use expr_texts::{leaves_are_single, parse_front, read_is_written, written_is_read};
use std::alloc::Global;
use x86_insn::{Amount, Value};

/// An amount, and the index of the first token behind it.
#[derive(Drop)]
pub(crate) struct ReadAmount<'a> {
    pub amount: Amount<'a>,
    pub next: usize,
}

/// A value, and the index of the first token behind it.
#[derive(Drop)]
pub struct ReadValue<'a> {
    pub value: Value<'a>,
    pub next: usize,
}

/// The amount of a sum, if it needs no tree.
#[inline(always)]
#[tactic(auto, using(crate::proofs::BareNames::bare_counts), unfolding(asm_expr::specs::Linear::linear, asm_expr::specs::Linear::binary_form))]
fn amount_of<'a>(sum: Sum<'_, 'a>) -> Option<Amount<'a>>
    ensures { FindsAmount sum.entry result }
{
    match sum.first {
        Summand::Number(number) => match sum.second {
            Addend::Nothing => Some(Amount::Number(number)),
            _ => None,
        },
        Summand::Name(token) => match sum.second {
            Addend::Nothing => Some(Amount::Name(token.bytes, 0)),
            Addend::Plus(Summand::Number(more)) => Some(Amount::Name(token.bytes, more)),
            Addend::Minus(Summand::Number(less)) => {
                Some(Amount::Name(token.bytes, 0u64.wrapping_sub(less)))
            }
            _ => None,
        },
        _ => None,
    }
}

/// Whether no operator stands at this place, in the usual cases.
#[inline(always)]
#[tactic(auto, unfolding(expr_texts::specs::Operators::operator_by, expr_texts::specs::Operators::operator_byte))]
fn stops_at(tokens: &[Token], at: usize) -> bool
    ensures { IsTrue result → operator_follows (spelled_from tokens.now at) ≡ false }
{
    if at >= tokens.len() {
        return true;
    }
    let token = &tokens[at];
    if token.kind != TokenKind::Operator {
        return true;
    }
    match token.bytes {
        [byte] => *byte == b',' || *byte == b'(' || *byte == b')',
        _ => false,
    }
}

/// The amount of so many tokens at this place, if no operator stands behind them and they need no
/// tree.
#[inline(always)]
pub(crate) fn sum_amount<'a>(tokens: &[Token<'a>], at: usize, next: usize) -> Option<ReadAmount<'a>>
    requires order { at ≤ next }
    requires within { next ≤ length tokens.now }
    ensures value { FindsRead (map spelled tokens.now) at result }
    ensures next { IfSome result (λ found. found.next ≡ next) }
    ensures within { IfSome result (λ found. found.next ≤ length tokens.now) }
{
    written_is_read();
    read_is_written();
    if !stops_at(tokens, next) {
        return None;
    }
    let amount = amount_of(sum_operand(&tokens[at..next])?)?;
    Some(ReadAmount { amount, next })
}

/// Minus the number.
#[inline(always)]
fn negated(number: u64) -> u64
    ensures { result ≡ signed true number }
{
    0u64.wrapping_sub(number)
}

/// The amount of a `-` and a number at this place, if no operator stands behind them.
#[inline(always)]
fn negative_amount<'a>(tokens: &[Token<'a>], at: usize) -> Option<ReadAmount<'a>>
    requires { at + 2 ≤ length tokens.now }
    ensures value { FindsRead (map spelled tokens.now) at result }
    ensures within { IfSome result (λ found. found.next ≤ length tokens.now) }
{
    written_is_read();
    read_is_written();
    leaves_are_single();
    if mark_at(tokens, at) != b'-' {
        return None;
    }
    if !stops_at(tokens, at + 2) {
        return None;
    }
    let number = single_constant(&tokens[at + 1])?;
    Some(ReadAmount {
        amount: Amount::Number(negated(number)),
        next: at + 2,
    })
}

/// The amount of an expression of numbers alone at this place.
#[inline(never)]
fn constant_amount<'a>(tokens: &[Token<'a>], at: usize) -> Option<ReadAmount<'a>>
    requires { at < length tokens.now }
    ensures value { FindsRead (map spelled tokens.now) at result }
    ensures within { IfSome result (λ found. found.next ≤ length tokens.now) }
{
    written_is_read();
    read_is_written();
    let front = front_constant(&tokens[at..])?;
    let next = at + front.length;
    if !stops_at(tokens, next) {
        return None;
    }
    Some(ReadAmount {
        amount: Amount::Number(front.value),
        next,
    })
}

/// The amount of any expression at this place, as a tree.
#[inline(never)]
fn tree_amount<'a>(
    alloc: Global,
    tokens: &[Token<'a>],
    at: usize,
) -> Result<ReadAmount<'a>, OperandFault>
    requires { at < length tokens.now }
    ensures value { GivesAmount (map spelled tokens.now) at result }
    ensures within { IfOk result (λ found. found.next ≤ length tokens.now) }
{
    match parse_front(alloc, &tokens[at..]) {
        Ok((expr, length)) => Ok(ReadAmount {
            amount: Amount::Tree(Box::new(alloc, expr)?),
            next: at + length,
        }),
        Err(refusal) => Err(refusal.raise()),
    }
}

/// The amount of the expression at this place that is no single token.
#[inline(never)]
fn long_amount<'a>(
    alloc: Global,
    tokens: &[Token<'a>],
    at: usize,
) -> Result<ReadAmount<'a>, OperandFault>
    requires { at < length tokens.now }
    ensures value { GivesAmount (map spelled tokens.now) at result }
    ensures within { IfOk result (λ found. found.next ≤ length tokens.now) }
{
    if tokens.len() - at >= 2 {
        if let Some(found) = negative_amount(tokens, at) {
            return Ok(found);
        }
    }
    if tokens.len() - at >= 3 {
        if let Some(found) = sum_amount(tokens, at, at + 3) {
            return Ok(found);
        }
    }
    if let Some(found) = constant_amount(tokens, at) {
        return Ok(found);
    }
    tree_amount(alloc, tokens, at)
}

/// The amount of the expression at this place.
#[inline(always)]
fn amount_at<'a>(
    alloc: Global,
    tokens: &[Token<'a>],
    at: usize,
) -> Result<ReadAmount<'a>, OperandFault>
    requires { at < length tokens.now }
    ensures value { GivesAmount (map spelled tokens.now) at result }
    ensures within { IfOk result (λ found. found.next ≤ length tokens.now) }
{
    if let Some(found) = sum_amount(tokens, at, at + 1) {
        return Ok(found);
    }
    long_amount(alloc, tokens, at)
}

/// The amount of the name at this place alone, where a suffix stands behind it and no operator
/// behind that.
#[inline(always)]
fn bare_amount<'a>(tokens: &[Token<'a>], at: usize) -> Option<ReadAmount<'a>>
    requires { at + 2 < length tokens.now }
    ensures value { FindsRead (without_suffix (map spelled tokens.now) at) at result }
    ensures next { IfSome result (λ found. found.next ≡ at + 1) }
{
    written_is_read();
    read_is_written();
    if !stops_at(tokens, at + 3) {
        return None;
    }
    let amount = amount_of(sum_operand(&tokens[at..at + 1])?)?;
    Some(ReadAmount {
        amount,
        next: at + 1,
    })
}

/// The tokens from this place up to the name, and all behind its suffix.
#[inline(never)]
fn joined_tokens<'a>(
    alloc: Global,
    tokens: &[Token<'a>],
    at: usize,
    name: usize,
) -> Result<Vec<Token<'a>>, OperandFault>
    requires order { at ≤ name }
    requires within { name + 2 < length tokens.now }
    ensures value { IfOk result (λ list.
        map spelled list.items ≡ drop at (without_suffix (map spelled tokens.now) name)) }
    ensures length { IfOk result (λ list. at + length list.items + 2 ≡ length tokens.now) }
    ensures memory { IfErr result (λ refusal. refusal ≡ NoMemory) }
{
    let mut list = Vec::new(alloc);
    list.extend_from_slice(&tokens[at..name + 1])?;
    list.extend_from_slice(&tokens[name + 3..])?;
    Ok(list)
}

/// The amount of what stands in the list, which is what is left of other tokens at this place.
fn moved_amount<'a>(
    alloc: Global,
    list: &[Token<'a>],
    at: usize,
) -> Result<ReadAmount<'a>, OperandFault>
    requires some { 0 < length list.now }
    requires within { at + length list.now < 2 ^ 64 }
    ensures value { (all : List SpelledToken) → map spelled list.now ≡ drop at all
        → length all ≡ at + length list.now → GivesAmount all at result }
    ensures within { IfOk result (λ found. found.next ≤ at + length list.now) }
{
    read_is_written();
    match amount_at(alloc, list, 0) {
        Ok(ReadAmount { amount, next }) => Ok(ReadAmount {
            amount,
            next: at + next,
        }),
        Err(refusal) => Err(refusal),
    }
}

/// The amount of the expression at this place, without the suffix behind this name, by a list of
/// the tokens that are left.
fn joined_amount<'a>(
    alloc: Global,
    tokens: &[Token<'a>],
    at: usize,
    name: usize,
) -> Result<ReadAmount<'a>, OperandFault>
    requires order { at ≤ name }
    requires within { name + 2 < length tokens.now }
    ensures value { GivesAmount (without_suffix (map spelled tokens.now) name) at result }
    ensures within { IfOk result (λ found. found.next + 2 ≤ length tokens.now) }
{
    let list = joined_tokens(alloc, tokens, at, name)?;
    moved_amount(alloc, list.as_slice(), at)
}

/// The amount of the expression at this place, without the suffix behind this name of it.
#[inline(never)]
fn suffixed_amount<'a>(
    alloc: Global,
    tokens: &[Token<'a>],
    at: usize,
    name: usize,
) -> Result<ReadAmount<'a>, OperandFault>
    requires order { at ≤ name }
    requires within { name + 2 < length tokens.now }
    ensures value { GivesAmount (without_suffix (map spelled tokens.now) name) at result }
    ensures within { IfOk result (λ found. found.next + 2 ≤ length tokens.now) }
{
    if name == at {
        if let Some(found) = bare_amount(tokens, name) {
            return Ok(found);
        }
    }
    joined_amount(alloc, tokens, at, name)
}

/// The value at this place, with this suffix.
#[inline(always)]
fn value_with<'a>(
    alloc: Global,
    tokens: &[Token<'a>],
    at: usize,
    named: Option<NamedSuffix>,
) -> Result<ReadValue<'a>, OperandFault>
    requires begins { at < length tokens.now }
    requires name { IfSome named (λ found. found.name ≡ suffixed_name (map spelled tokens.now) at) }
    requires within { IfSome named (λ found. found.name + 2 < length tokens.now) }
    ensures value { let suffix = option_map (λ found. found.suffix) named in
        GivesSo IsValueRead result (value_with (map spelled tokens.now) at suffix) }
    ensures within { IfOk result (λ found. found.next ≤ length tokens.now) }
{
    match named {
        Some(NamedSuffix { suffix, name }) => match suffixed_amount(alloc, tokens, at, name) {
            Ok(ReadAmount { amount, next }) => Ok(ReadValue {
                value: Value {
                    amount,
                    suffix: Some(suffix),
                },
                next: next + 2,
            }),
            Err(refusal) => Err(refusal),
        },
        None => match amount_at(alloc, tokens, at) {
            Ok(ReadAmount { amount, next }) => Ok(ReadValue {
                value: Value {
                    amount,
                    suffix: None,
                },
                next,
            }),
            Err(refusal) => Err(refusal),
        },
    }
}

/// The value at this place, where some token stands.
#[inline(always)]
#[tactic(auto, unfolding(crate::specs::Values::value_at))]
fn value_from<'a>(
    alloc: Global,
    tokens: &[Token<'a>],
    at: usize,
) -> Result<ReadValue<'a>, OperandFault>
    requires { at < length tokens.now }
    ensures value { GivesSo IsValueRead result (value_at (map spelled tokens.now) at) }
    ensures within { IfOk result (λ found. found.next ≤ length tokens.now) }
{
    let named = suffix_at(tokens, at);
    value_with(alloc, tokens, at, named)
}

/// The value at this place, where an expression is due.
#[inline(always)]
#[tactic(auto, using(crate::proofs::FrontReadings::nothing_due))]
pub fn value_at<'a>(
    alloc: Global,
    tokens: &[Token<'a>],
    at: usize,
) -> Result<ReadValue<'a>, OperandFault>
    ensures value { GivesSo IsValueRead result (value_at (map spelled tokens.now) at) }
    ensures within { IfOk result (λ found. found.next ≤ length tokens.now) }
{
    if at < tokens.len() {
        value_from(alloc, tokens, at)
    } else {
        Err(OperandFault::Fault(OperandCause::BadExpression))
    }
}

/// The value at this place, where a mark of another operand may stand, which begins no value.
#[inline(always)]
#[tactic(auto, unfolding(crate::specs::Values::begun_at))]
pub(crate) fn begun_at<'a>(
    alloc: Global,
    tokens: &[Token<'a>],
    at: usize,
) -> Result<ReadValue<'a>, OperandFault>
    ensures value { GivesSo IsValueRead result (begun_at (map spelled tokens.now) at) }
    ensures within { IfOk result (λ found. found.next ≤ length tokens.now) }
{
    if begins_value(tokens, at) {
        value_from(alloc, tokens, at)
    } else {
        Err(OperandFault::Fault(OperandCause::BadOperand))
    }
}
