//! What operators give for constants, modulo 2^64.

ghost use Rattle.std.specs.Prelude.{◌≡◌, ◌<◌, ◌≤◌, ◌^◌};
ghost use Rattle.asm_expr.specs.Forms.{signed};
ghost use Rattle.asm_expr.specs.Arithmetic.{is_negative, magnitude, quotient, remainder, is_signed_below, comparison, truth, combined, turned};

use crate::faults::ExprCause;
use crate::trees::{BinaryOp, UnaryOp};

/// The number, or minus the number.
pub(crate) fn signed(minus: bool, number: u64) -> u64
    ensures { result ≡ signed minus number }
{
    if minus { number.wrapping_neg() } else { number }
}

/// Whether the number is negative in two's complement.
fn is_negative(number: u64) -> bool
    ensures { result ≡ is_negative number }
{
    number >= 1 << 63
}

/// How far the number is from 0.
fn magnitude(number: u64) -> u64
    ensures value { result ≡ magnitude number }
    ensures within { 0 < number → 0 < result }
{
    signed(is_negative(number), number)
}

/// The signed quotient, towards 0.
fn quotient(a: u64, b: u64) -> u64
    requires { 0 < b }
    ensures { result ≡ quotient a b }
{
    signed(
        is_negative(a) != is_negative(b),
        magnitude(a) / magnitude(b),
    )
}

/// What is left of the signed division.
fn remainder(a: u64, b: u64) -> u64
    requires { 0 < b }
    ensures { result ≡ remainder a b }
{
    signed(is_negative(a), magnitude(a) % magnitude(b))
}

/// Whether the first number is below the second, both signed.
fn is_signed_below(a: u64, b: u64) -> bool
    ensures { result ≡ is_signed_below a b }
{
    if is_negative(a) != is_negative(b) {
        is_negative(a)
    } else {
        a < b
    }
}

/// -1 for true and 0 for false.
fn comparison(holds: bool) -> u64
    ensures { result ≡ comparison holds }
{
    if holds { u64::MAX } else { 0 }
}

/// 1 for true and 0 for false.
fn truth(holds: bool) -> u64
    ensures { result ≡ truth holds }
{
    if holds { 1 } else { 0 }
}

/// What an operator gives for two constants.
#[inline(always)]
#[tactic(auto, unfolding(crate::specs::Arithmetic::combined))]
pub fn combined(op: BinaryOp, a: u64, b: u64) -> Result<u64, ExprCause>
    ensures { result ≡ combined op a b }
{
    match op {
        BinaryOp::Mul => Ok(a.wrapping_mul(b)),
        BinaryOp::Div if b == 0 => Err(ExprCause::DivisionByZero),
        BinaryOp::Div => Ok(quotient(a, b)),
        BinaryOp::Rem if b == 0 => Err(ExprCause::DivisionByZero),
        BinaryOp::Rem => Ok(remainder(a, b)),
        BinaryOp::Shl => Ok(if b < 64 { a.wrapping_shl(b as u32) } else { 0 }),
        BinaryOp::Shr => Ok(if b < 64 { a >> b } else { 0 }),
        BinaryOp::Or => Ok(a | b),
        BinaryOp::And => Ok(a & b),
        BinaryOp::Xor => Ok(a ^ b),
        BinaryOp::OrNot => Ok(a | !b),
        BinaryOp::Add => Ok(a.wrapping_add(b)),
        BinaryOp::Sub => Ok(a.wrapping_add(signed(true, b))),
        BinaryOp::Eq => Ok(comparison(a == b)),
        BinaryOp::Ne => Ok(comparison(a != b)),
        BinaryOp::Lt => Ok(comparison(is_signed_below(a, b))),
        BinaryOp::Gt => Ok(comparison(is_signed_below(b, a))),
        BinaryOp::Le => Ok(comparison(!is_signed_below(b, a))),
        BinaryOp::Ge => Ok(comparison(!is_signed_below(a, b))),
        BinaryOp::BothTrue => Ok(truth(a != 0 && b != 0)),
        BinaryOp::OneTrue => Ok(truth(a != 0 || b != 0)),
    }
}

/// What a prefix operator gives for a constant.
pub fn turned(op: UnaryOp, number: u64) -> u64
    ensures { result ≡ turned op number }
{
    match op {
        UnaryOp::Minus => signed(true, number),
        UnaryOp::Complement => !number,
    }
}
