//! The linear form of a part of an expression, by the forms of its operands.

ghost use Rattle.std.specs.Prelude.{◌≡◌, true, Ok, IfOk};
ghost use Rattle.asm_base.specs.Refusals.{Returns};
ghost use Rattle.asm_expr.specs.Following.{Follows, FollowsBoth};
ghost use Rattle.asm_expr.specs.Forms.{joined, symbol_form};
ghost use Rattle.asm_expr.specs.Settled.{settled, distance_by};
ghost use Rattle.asm_expr.specs.Linear.{form_of, constant_of, unary_form, constant_binary, binary_form, value_of};

use crate::arithmetic::combined;
use crate::faults::{ExprCause, ExprFault};
use crate::forms::{Linear, Term, constant_form, copied_form, symbol_form, symbols_apart};
use crate::ids::SymId;
use crate::knowledge::{Known, Look};
use crate::settling::settled;
use crate::summing::joined;
use crate::trees::{BinaryOp, UnaryOp, Written};
use std::alloc::{AllocFailed, Global};

/// What a symbol stands for.
pub fn form_of<K: Known>(alloc: Global, known: &K, symbol: SymId) -> Result<Linear, ExprFault>
    ensures { Returns result (Ok (form_of (K.told known.now) symbol)) }
{
    match known.look(symbol) {
        Look::Absent => Ok(symbol_form(alloc, symbol)?),
        Look::Constant(number) => Ok(constant_form(alloc, number)),
        Look::Label { .. } => Ok(symbol_form(alloc, symbol)?),
        Look::Form(form) => settled(alloc, known, copied_form(alloc, form)?),
    }
}

/// The constant of a form that has no symbols.
fn constant_of(form: &Linear) -> Result<u64, ExprCause>
    ensures { result ≡ constant_of form.now }
{
    if form.terms().is_empty() {
        Ok(form.constant())
    } else {
        Err(ExprCause::NotASumOfSymbols)
    }
}

/// The sum of two forms, of which the second is taken with this sign, with numbers for labels that
/// cancel.
pub fn settled_sum<K: Known>(
    alloc: Global,
    known: &K,
    minus: bool,
    one: Linear,
    other: Linear,
) -> Result<Linear, ExprFault>
    ensures { Returns result (Ok (settled (K.told known.now) (joined minus one other))) }
{
    let made = joined(minus, one, other)?;
    settled(alloc, known, made)
}

/// How far the one symbol stands behind the other, where both are labels of one stretch.
fn distance<K: Known>(known: &K, one: SymId, other: SymId) -> Option<u64>
    ensures { result ≡ distance_by (K.told known.now one) (K.told known.now other) }
{
    let Look::Label { stretch, at } = known.look(one) else {
        return None;
    };
    match known.look(other) {
        Look::Label {
            stretch: others,
            at: origin,
        } if others == stretch => Some(at.wrapping_sub(origin)),
        _ => None,
    }
}

/// The difference of two symbols, with a number for labels that cancel.
pub fn settled_difference<K: Known>(
    alloc: Global,
    known: &K,
    one: SymId,
    other: SymId,
) -> Result<Linear, AllocFailed<Term>>
    ensures { IfOk result (λ form. form
        ≡ settled (K.told known.now) (joined true (symbol_form one) (symbol_form other))) }
{
    if one.index() == other.index() {
        return Ok(constant_form(alloc, 0));
    }
    match distance(known, one, other) {
        Some(number) => Ok(constant_form(alloc, number)),
        None => symbols_apart(alloc, one, other),
    }
}

/// The form of a prefix operator and its operand.
#[tactic(auto, unfolding(crate::specs::Linear::unary_form))]
fn unary_form<K: Known>(
    alloc: Global,
    known: &K,
    op: UnaryOp,
    operand: Linear,
) -> Result<Linear, ExprFault>
    ensures { Returns result (unary_form (K.told known.now) op operand) }
{
    match op {
        UnaryOp::Minus => {
            let made = joined(true, constant_form(alloc, 0), operand)?;
            settled(alloc, known, made)
        }
        UnaryOp::Complement => {
            let number = constant_of(&operand).map_err(ExprFault::Fault)?;
            Ok(constant_form(alloc, !number))
        }
    }
}

/// The form of an operator between constants.
fn constant_binary(
    alloc: Global,
    op: BinaryOp,
    left: Linear,
    right: Linear,
) -> Result<Linear, ExprCause>
    ensures { result ≡ constant_binary op left right }
{
    let a = constant_of(&left)?;
    let b = constant_of(&right)?;
    Ok(constant_form(alloc, combined(op, a, b)?))
}

/// The form of an operator and its operands.
#[tactic(auto, unfolding(crate::specs::Linear::binary_form))]
fn binary_form<K: Known>(
    alloc: Global,
    known: &K,
    op: BinaryOp,
    left: Linear,
    right: Linear,
) -> Result<Linear, ExprFault>
    ensures { Returns result (binary_form (K.told known.now) op left right) }
{
    match op {
        BinaryOp::Add => {
            let made = joined(false, left, right)?;
            settled(alloc, known, made)
        }
        BinaryOp::Sub => {
            let made = joined(true, left, right)?;
            settled(alloc, known, made)
        }
        _ => constant_binary(alloc, op, left, right).map_err(ExprFault::Fault),
    }
}

/// The form of a name as it is written.
pub(crate) fn named_form<K: Known>(
    alloc: Global,
    known: &K,
    written: &Written,
) -> Result<Linear, ExprFault>
    ensures { Returns result (Ok (form_of (K.told known.now) (K.meant known.now written.now))) }
{
    form_of(alloc, known, known.symbol(written))
}

/// The form of the place.
pub(crate) fn here_form<K: Known>(alloc: Global, known: &K) -> Result<Linear, ExprFault>
    ensures { Returns result (Ok (form_of (K.told known.now) (K.place known.now))) }
{
    form_of(alloc, known, known.here())
}

/// The form of a prefix operator, by the answer for its operand: a refusal goes on.
pub(crate) fn unary_answer<K: Known>(
    alloc: Global,
    known: &K,
    op: UnaryOp,
    operand: Result<Linear, ExprFault>,
) -> Result<Linear, ExprFault>
    ensures { Follows operand (unary_form (K.told known.now) op) result }
{
    match operand {
        Ok(below) => unary_form(alloc, known, op, below),
        Err(refusal) => Err(refusal),
    }
}

/// The form of an operator, by the answers for its operands: the first refusal goes on.
pub(crate) fn binary_answer<K: Known>(
    alloc: Global,
    known: &K,
    op: BinaryOp,
    left: Result<Linear, ExprFault>,
    right: Result<Linear, ExprFault>,
) -> Result<Linear, ExprFault>
    ensures { FollowsBoth left right (binary_form (K.told known.now) op) result }
{
    match (left, right) {
        (Ok(one), Ok(other)) => binary_form(alloc, known, op, one, other),
        (Err(refusal), _) => Err(refusal),
        (_, Err(refusal)) => Err(refusal),
    }
}

/// The constant of a form, which is known where the form has no symbols.
pub fn value_of(form: &Linear) -> Result<u64, ExprCause>
    ensures { result ≡ value_of form.now }
{
    if form.terms().is_empty() {
        Ok(form.constant())
    } else {
        Err(ExprCause::ValueNotKnown)
    }
}
