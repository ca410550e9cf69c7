//! Operands evaluated as they are read: of numbers alone, or of leaves that are worth something besides.

ghost use Rattle.std.specs.Prelude.{◌≡◌, ◌<◌, ◌≤◌, ℕ, [], ◌∷◌, length, map};
ghost use Rattle.asm_base.specs.Tokens.{spelled};
ghost use Rattle.expr_texts.specs.Found.{spelled_from};
ghost use Rattle.asm_operands.specs.Constants.{FindsConstant, FindsLoneConstant, FindsSingle, FindsFront};
ghost use Rattle.asm_operands.specs.Counting.{first_level, ReadsOperand, ReadsExpression};
ghost use Rattle.asm_operands.specs.Counting.{FindsCounted, FindsExpression};
ghost use Rattle.asm_operands.specs.Worths.{FindsFrontWorth};

use crate::leaves::{Leaves, Numbers};
use crate::levels::token_level;
use crate::numbers::leaf;
use asm_base::{Token, TokenKind};
use asm_expr::turned;
use expr_texts::{closes, opens, prefix_of};

/// The most tokens that are looked at: a tree of so many nodes is not too high.
const MOST_TOKENS: usize = 200;

/// The most parentheses and prefix operators that are open at one place.
const MOST_OPEN: u8 = 60;

/// A number at the front of tokens, and how many of them it is.
#[derive(Clone, Copy)]
pub struct FrontConstant {
    pub value: u64,
    pub length: usize,
}

/// A value at the front of tokens, and how many of them it is.
#[derive(Clone, Copy)]
pub struct FrontValue<V> {
    pub value: V,
    pub length: usize,
}

/// What is counted so far, the index of the first token behind it, and how tightly the operator that
/// this token is binds: 0 where it is none.
#[derive(Clone, Copy)]
struct Counted<V> {
    value: V,
    next: usize,
    level: u8,
}

/// How tightly the operator that this token is binds, and 0 where it is none.
#[inline(always)]
#[tactic(auto, using(crate::proofs::TokenLists::level_none, crate::proofs::TokenLists::level_one))]
fn level_at(tokens: &[Token], at: usize) -> u8
    ensures { result ≡ first_level (spelled_from tokens.now at) }
{
    if at >= tokens.len() {
        return 0;
    }
    token_level(&tokens[at])
}

/// The operand that begins at this token, if it is a number.
#[inline(always)]
fn number_operand<L: Leaves>(leaves: &L, tokens: &[Token], at: usize) -> Option<Counted<L::Value>>
    ensures { (depth : ℕ) → FindsCounted (L.worth leaves.now) (ReadsOperand depth) tokens.now at result }
{
    if at >= tokens.len() {
        return None;
    }
    let value = leaves.leaf(&tokens[at])?;
    let next = at + 1;
    let level = level_at(tokens, next);
    Some(Counted { value, next, level })
}

/// The expression that begins at this token, if it is one token, however many constructs are open.
#[inline(always)]
fn lone_number<L: Leaves>(
    leaves: &L,
    tokens: &[Token],
    at: usize,
    level: u8,
) -> Option<Counted<L::Value>>
    requires { 1 ≤ level }
    ensures { (depth : ℕ) → FindsCounted (L.worth leaves.now) (ReadsExpression level depth) tokens.now at result }
{
    let found = number_operand(leaves, tokens, at)?;
    if level <= found.level {
        None
    } else {
        Some(found)
    }
}

/// The operand in parentheses that begins at this token.
#[cycle(constants)]
#[inline(always)]
fn closed_operand<L: Leaves>(
    leaves: &L,
    tokens: &[Token],
    at: usize,
    depth: u8,
) -> Option<Counted<L::Value>>
    requires tokens { length tokens.now ≤ 200 }
    requires depth { depth ≤ 60 }
    ensures { FindsCounted (L.worth leaves.now) (ReadsOperand depth) tokens.now at result }
{
    if at >= tokens.len() || depth >= MOST_OPEN {
        return None;
    }
    if !opens(&tokens[at]) {
        return None;
    }
    let mut end = at + 1;
    let value = expression(leaves, tokens, &mut end, 1, depth + 1)?;
    if end >= tokens.len() {
        return None;
    }
    if !closes(&tokens[end]) {
        return None;
    }
    let next = end + 1;
    let level = level_at(tokens, next);
    Some(Counted { value, next, level })
}

/// The operand of a prefix operator that begins at this token: most are numbers or in parentheses.
#[cycle(constants)]
#[inline(always)]
fn tight_operand<L: Leaves>(
    leaves: &L,
    tokens: &[Token],
    at: usize,
    depth: u8,
) -> Option<Counted<L::Value>>
    requires tokens { length tokens.now ≤ 200 }
    requires depth { depth ≤ 60 }
    ensures { FindsCounted (L.worth leaves.now) (ReadsExpression 7 depth) tokens.now at result }
{
    if at >= tokens.len() {
        return None;
    }
    if tokens[at].kind != TokenKind::Operator {
        return lone_number(leaves, tokens, at, 7);
    }
    if opens(&tokens[at]) {
        return closed_operand(leaves, tokens, at, depth);
    }
    let mut next = at;
    let value = expression(leaves, tokens, &mut next, 7, depth)?;
    let level = level_at(tokens, next);
    Some(Counted { value, next, level })
}

/// The operand that begins at this token, if it is a prefix operator.
#[cycle(constants)]
#[inline(always)]
fn turned_operand<L: Leaves>(
    leaves: &L,
    tokens: &[Token],
    at: usize,
    depth: u8,
) -> Option<Counted<L::Value>>
    requires tokens { length tokens.now ≤ 200 }
    requires depth { depth ≤ 60 }
    ensures { FindsCounted (L.worth leaves.now) (ReadsOperand depth) tokens.now at result }
{
    if at >= tokens.len() || depth >= MOST_OPEN {
        return None;
    }
    let op = prefix_of(&tokens[at])?;
    let inner = tight_operand(leaves, tokens, at + 1, depth + 1)?;
    let value = leaves.turned(op, inner.value)?;
    Some(Counted {
        value,
        next: inner.next,
        level: inner.level,
    })
}

/// The operand that begins at this token, where so many constructs are open.
#[cycle(constants)]
#[inline(always)]
fn operand<L: Leaves>(
    leaves: &L,
    tokens: &[Token],
    at: usize,
    depth: u8,
) -> Option<Counted<L::Value>>
    requires tokens { length tokens.now ≤ 200 }
    requires depth { depth ≤ 60 }
    ensures { FindsCounted (L.worth leaves.now) (ReadsOperand depth) tokens.now at result }
{
    if at >= tokens.len() {
        return None;
    }
    let token = &tokens[at];
    if token.kind != TokenKind::Operator {
        number_operand(leaves, tokens, at)
    } else if opens(token) {
        closed_operand(leaves, tokens, at, depth)
    } else {
        turned_operand(leaves, tokens, at, depth)
    }
}

/// The expression behind an operator: most are one token.
#[cycle(constants)]
#[inline(always)]
fn right_operand<L: Leaves>(
    leaves: &L,
    tokens: &[Token],
    at: usize,
    level: u8,
    depth: u8,
) -> Option<Counted<L::Value>>
    requires tokens { length tokens.now ≤ 200 }
    requires level { 1 ≤ level }
    requires depth { depth ≤ 60 }
    ensures { FindsCounted (L.worth leaves.now) (ReadsExpression level depth) tokens.now at result }
{
    if let Some(found) = lone_number(leaves, tokens, at, level) {
        return Some(found);
    }
    let mut next = at;
    let value = expression(leaves, tokens, &mut next, level, depth)?;
    let behind = level_at(tokens, next);
    Some(Counted {
        value,
        next,
        level: behind,
    })
}

/// The expression that begins at this token, of operators that bind at least so tightly. The index
/// becomes that of the first token behind it.
#[cycle(constants)]
#[inline(never)]
fn expression<L: Leaves>(
    leaves: &L,
    tokens: &[Token],
    at: &mut usize,
    level: u8,
    depth: u8,
) -> Option<L::Value>
    requires tokens { length tokens.now ≤ 200 }
    requires level { 1 ≤ level }
    requires depth { depth ≤ 60 }
    ensures { FindsExpression (L.worth leaves.now) level depth tokens.now at.old at.new result }
{
    let mut left = operand(leaves, tokens, *at, depth)?;
    while level <= left.level {
        let right = right_operand(leaves, tokens, left.next + 1, left.level + 1, depth)?;
        let value = leaves.joined(&tokens[left.next], left.value, right.value)?;
        left = Counted {
            value,
            next: right.next,
            level: right.level,
        };
    }
    *at = left.next;
    Some(left.value)
}

/// What an operand at the front of the tokens is worth. None says nothing of them.
#[inline(always)]
pub fn front_value<L: Leaves>(leaves: &L, tokens: &[Token]) -> Option<FrontValue<L::Value>>
    ensures { FindsFrontWorth (L.worth leaves.now) (map spelled tokens.now) result }
{
    let mut length = 0;
    let front = &tokens[..tokens.len().min(MOST_TOKENS)];
    let value = expression(leaves, front, &mut length, 1, 0)?;
    Some(FrontValue { value, length })
}

/// The number that is an operand at the front of the tokens. None says nothing of them.
#[inline(always)]
pub fn front_constant(tokens: &[Token]) -> Option<FrontConstant>
    ensures { FindsFront (map spelled tokens.now) result }
{
    let front = front_value(&Numbers, tokens)?;
    Some(FrontConstant {
        value: front.value,
        length: front.length,
    })
}

/// The value of an operand of several tokens.
#[inline(never)]
fn counted_operand(operand: &[Token]) -> Option<u64>
    ensures { FindsConstant (map spelled operand.now) result }
{
    let front = front_constant(operand)?;
    if front.length < operand.len() {
        return None;
    }
    Some(front.value)
}

/// The number that a token is as an operand. None says nothing of the token.
#[inline(always)]
pub fn single_constant(token: &Token) -> Option<u64>
    ensures { FindsSingle (spelled token.now) result }
{
    leaf(token)
}

/// The number that a prefix operator makes of the token behind it. None says nothing of the two.
#[inline(never)]
fn turned_number(sign: &Token, token: &Token) -> Option<u64>
    ensures { FindsLoneConstant (spelled sign.now ∷ spelled token.now ∷ []) result }
{
    let op = prefix_of(sign)?;
    let number = leaf(token)?;
    Some(turned(op, number))
}

/// The number that one token is, or two with a prefix operator. None says nothing of the tokens.
#[inline(always)]
pub fn lone_constant(tokens: &[Token]) -> Option<u64>
    ensures { FindsLoneConstant (map spelled tokens.now) result }
{
    match tokens {
        [token] => leaf(token),
        [sign, token] => turned_number(sign, token),
        _ => None,
    }
}

/// The value of an operand of numbers alone. None says nothing of the operand.
#[inline(always)]
pub fn constant_operand(operand: &[Token]) -> Option<u64>
    ensures { FindsConstant (map spelled operand.now) result }
{
    match operand {
        [token] => leaf(token),
        [sign, token] => turned_number(sign, token),
        _ => counted_operand(operand),
    }
}
