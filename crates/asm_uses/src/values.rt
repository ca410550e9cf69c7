//! What expressions are worth where their names are known: numbers, and labels that may cancel.

ghost use Rattle.std.specs.Prelude.{◌≡◌, ◌+◌, ◌%◌, ◌^◌, ◌<◌, true, false};
ghost use Rattle.asm_base.specs.Tokens.{spelled};
ghost use Rattle.asm_base.specs.declared.tokens.TokenKind.TheVariants.{Name};
ghost use Rattle.asm_operands.specs.Worths.{FindsLeafWorth, FindsJoined};
ghost use Rattle.asm_uses.specs.declared.values.Value.TheVariants.{Number, Label};
ghost use Rattle.asm_uses.specs.Values.{IsWorthIn, FindsSum};

use crate::places::View;
use asm_base::{Token, TokenKind};
use asm_expr::{Known, Look, UnaryOp, turned};
use asm_operands::{Leaves, Numbers, is_dot, is_mark, minus, operator_value};

/// What an expression is worth.
#[derive(Clone, Copy)]
pub enum Value {
    Number(u64),
    /// A label of this stretch and a number: together they stand at this place of the stretch.
    Label { stretch: u64, at: u64 },
}

/// The first number less the second, modulo 2^64.
#[inline(always)]
fn less(a: u64, b: u64) -> u64
    ensures value { (result + b) % 2 ^ 64 ≡ a % 2 ^ 64 }
    ensures within { result < 2 ^ 64 }
{
    a.wrapping_sub(b)
}

/// A label less a value.
#[inline(always)]
fn label_less(stretch: u64, at: u64, right: Value) -> Option<Value>
    ensures { FindsSum true (Label stretch at) right result }
{
    match right {
        Value::Number(number) => Some(Value::Label {
            stretch,
            at: less(at, number),
        }),
        Value::Label {
            stretch: others,
            at: origin,
        } => {
            if others == stretch {
                Some(Value::Number(less(at, origin)))
            } else {
                None
            }
        }
    }
}

/// A label and a value.
#[inline(always)]
fn label_more(stretch: u64, at: u64, right: Value) -> Option<Value>
    ensures { FindsSum false (Label stretch at) right result }
{
    match right {
        Value::Number(number) => Some(Value::Label {
            stretch,
            at: at.wrapping_add(number),
        }),
        Value::Label { .. } => None,
    }
}

/// A number and a value that is a label.
#[inline(always)]
fn number_more(number: u64, right: Value) -> Option<Value>
    ensures { FindsSum false (Number number) right result }
{
    match right {
        Value::Label { stretch, at } => Some(Value::Label {
            stretch,
            at: at.wrapping_add(number),
        }),
        Value::Number(_) => None,
    }
}

/// The sum of two values, of which one is a label and the second is taken with this sign.
#[inline(always)]
fn sum_of(minus: bool, left: Value, right: Value) -> Option<Value>
    ensures { FindsSum minus left right result }
{
    match left {
        Value::Label { stretch, at } => {
            if minus {
                label_less(stretch, at, right)
            } else {
                label_more(stretch, at, right)
            }
        }
        Value::Number(number) => {
            if minus {
                None
            } else {
                number_more(number, right)
            }
        }
    }
}

/// What the operator that the token is makes of two values, of which one is a label.
#[inline(never)]
fn joined_labels(view: &View, operator: &Token, left: Value, right: Value) -> Option<Value>
    ensures { FindsJoined (IsWorthIn view.now) (spelled operator.now) left right result }
{
    let minus = minus(operator)?;
    sum_of(minus, left, right)
}

/// What the operator that the token is makes of a number and a value.
#[inline(always)]
fn joined_number(view: &View, operator: &Token, number: u64, right: Value) -> Option<Value>
    ensures { FindsJoined (IsWorthIn view.now) (spelled operator.now) (Number number) right result }
{
    match right {
        Value::Number(other) => Some(Value::Number(operator_value(operator, number, other)?)),
        Value::Label { .. } => joined_labels(view, operator, Value::Number(number), right),
    }
}

/// What a name without quotes is worth.
#[inline(never)]
fn named_value(view: &View, token: &Token) -> Option<Value>
    requires { token.now.kind ≡ Name }
    ensures { FindsLeafWorth (IsWorthIn view.now) (spelled token.now) result }
{
    if is_dot(token) || is_mark(token, b',') {
        return None;
    }
    let symbol = view.symbols.find_text(token.bytes)?;
    match view.look(symbol) {
        Look::Label { stretch, at } => Some(Value::Label { stretch, at }),
        Look::Constant(number) => Some(Value::Number(number)),
        _ => None,
    }
}

/// What a token is worth that is no name.
#[inline(always)]
fn number_value(view: &View, token: &Token) -> Option<Value>
    ensures { FindsLeafWorth (IsWorthIn view.now) (spelled token.now) result }
{
    Some(Value::Number(Numbers.leaf(token)?))
}

impl<'a> Leaves for View<'a> {
    type Value = Value;

    ghost worth = { λ view tree value. IsWorthIn view tree value };

    #[inline(always)]
    fn leaf(&self, token: &Token) -> Option<Value> {
        if token.kind == TokenKind::Name {
            named_value(self, token)
        } else {
            number_value(self, token)
        }
    }

    #[inline(always)]
    fn turned(&self, op: UnaryOp, operand: Value) -> Option<Value> {
        match operand {
            Value::Number(number) => Some(Value::Number(turned(op, number))),
            Value::Label { .. } => None,
        }
    }

    #[inline(always)]
    fn joined(&self, operator: &Token, left: Value, right: Value) -> Option<Value> {
        match left {
            Value::Number(number) => joined_number(self, operator, number, right),
            Value::Label { .. } => joined_labels(self, operator, left, right),
        }
    }
}
