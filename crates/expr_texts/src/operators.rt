//! Operators and parentheses: their tokens, and how tightly operators bind.

ghost use Rattle.std.specs.Prelude.{◌≡◌, ◌≤◌};
ghost use Rattle.asm_base.specs.Tokens.{spelled};
ghost use Rattle.expr_texts.specs.Operators.{mark_of, opens, closes, prefix_by, prefix_of, operator_byte, below_byte, above_byte, operator_bytes, operator_by, operator_of, level_of};
ghost use Rattle.expr_texts.specs.Reading.{operator_from};

use asm_base::{Token, TokenKind};
use asm_expr::{BinaryOp, UnaryOp};

/// The bytes of an operator or a mark of punctuation, and none of any other token.
fn mark_of<'a>(token: &Token<'a>) -> &'a [u8]
    ensures { result.now ≡ mark_of (spelled token.now) }
{
    match token.kind {
        TokenKind::Operator => token.bytes,
        _ => &[],
    }
}

/// Whether the token is `(`.
pub fn opens(token: &Token) -> bool
    ensures { result ≡ opens (spelled token.now) }
{
    mark_of(token) == b"(".as_slice()
}

/// Whether the token is `)`.
pub fn closes(token: &Token) -> bool
    ensures { result ≡ closes (spelled token.now) }
{
    mark_of(token) == b")".as_slice()
}

/// The operator that these bytes are before an operand.
#[tactic(auto, unfolding(crate::specs::Operators::prefix_by))]
fn prefix_by(mark: &[u8]) -> Option<UnaryOp>
    ensures { result ≡ prefix_by mark.now }
{
    match mark {
        [byte] => match *byte {
            b'-' => Some(UnaryOp::Minus),
            b'~' => Some(UnaryOp::Complement),
            _ => None,
        },
        _ => None,
    }
}

/// The operator that the token is before an operand.
pub fn prefix_of(token: &Token) -> Option<UnaryOp>
    ensures { result ≡ prefix_of (spelled token.now) }
{
    prefix_by(mark_of(token))
}

/// The operator of one byte.
#[tactic(auto, unfolding(crate::specs::Operators::operator_byte))]
fn operator_byte(byte: u8) -> Option<BinaryOp>
    ensures { result ≡ operator_byte byte }
{
    match byte {
        b'*' => Some(BinaryOp::Mul),
        b'/' => Some(BinaryOp::Div),
        b'%' => Some(BinaryOp::Rem),
        b'|' => Some(BinaryOp::Or),
        b'&' => Some(BinaryOp::And),
        b'^' => Some(BinaryOp::Xor),
        b'!' => Some(BinaryOp::OrNot),
        b'+' => Some(BinaryOp::Add),
        b'-' => Some(BinaryOp::Sub),
        b'<' => Some(BinaryOp::Lt),
        b'>' => Some(BinaryOp::Gt),
        _ => None,
    }
}

/// The operator of `<` and this byte.
fn below_byte(byte: u8) -> Option<BinaryOp>
    ensures { result ≡ below_byte byte }
{
    match byte {
        b'<' => Some(BinaryOp::Shl),
        b'>' => Some(BinaryOp::Ne),
        b'=' => Some(BinaryOp::Le),
        _ => None,
    }
}

/// The operator of `>` and this byte.
fn above_byte(byte: u8) -> Option<BinaryOp>
    ensures { result ≡ above_byte byte }
{
    match byte {
        b'>' => Some(BinaryOp::Shr),
        b'=' => Some(BinaryOp::Ge),
        _ => None,
    }
}

/// The operator of two bytes.
#[tactic(auto, unfolding(crate::specs::Operators::operator_bytes))]
fn operator_bytes(first: u8, second: u8) -> Option<BinaryOp>
    ensures { result ≡ operator_bytes first second }
{
    match first {
        b'<' => below_byte(second),
        b'>' => above_byte(second),
        b'=' if second == b'=' => Some(BinaryOp::Eq),
        b'!' if second == b'=' => Some(BinaryOp::Ne),
        b'&' if second == b'&' => Some(BinaryOp::BothTrue),
        b'|' if second == b'|' => Some(BinaryOp::OneTrue),
        _ => None,
    }
}

/// The operator that these bytes are between two operands.
#[tactic(auto, unfolding(crate::specs::Operators::operator_by))]
fn operator_by(mark: &[u8]) -> Option<BinaryOp>
    ensures { result ≡ operator_by mark.now }
{
    match mark {
        [byte] => operator_byte(*byte),
        [first, second] => operator_bytes(*first, *second),
        _ => None,
    }
}

/// The operator that the token is between two operands.
#[inline(always)]
pub fn operator_of(token: &Token) -> Option<BinaryOp>
    ensures { result ≡ operator_of (spelled token.now) }
{
    operator_by(mark_of(token))
}

/// How tightly an operator binds its operands.
#[tactic(auto, unfolding(crate::specs::Operators::level_of))]
pub fn level_of(op: BinaryOp) -> u8
    ensures value { result ≡ level_of op }
    ensures least { 1 ≤ result }
    ensures most { result ≤ 6 }
{
    match op {
        BinaryOp::Mul | BinaryOp::Div | BinaryOp::Rem | BinaryOp::Shl | BinaryOp::Shr => 6,
        BinaryOp::Or | BinaryOp::And | BinaryOp::Xor | BinaryOp::OrNot => 5,
        BinaryOp::Add | BinaryOp::Sub => 4,
        BinaryOp::Eq | BinaryOp::Ne | BinaryOp::Lt | BinaryOp::Gt | BinaryOp::Le | BinaryOp::Ge =>
            3,
        BinaryOp::BothTrue => 2,
        BinaryOp::OneTrue => 1,
    }
}

/// The operator, if it binds at least so tightly.
pub fn operator_from(level: u8, op: Option<BinaryOp>) -> Option<BinaryOp>
    ensures { result ≡ operator_from level op }
{
    let op = op?;
    if level <= level_of(op) {
        Some(op)
    } else {
        None
    }
}
