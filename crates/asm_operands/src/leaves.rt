//! What the leaves of expressions are worth to who reads these, and what operators make of that.

ghost use Rattle.asm_base.specs.Tokens.{spelled};
ghost use Rattle.asm_expr.specs.Trees.{Tree};
ghost use Rattle.asm_operands.specs.Worths.{IsConstantTree, FindsValue, FindsLeafWorth, FindsTurned, FindsJoined};

use crate::numbers::leaf;
use asm_base::Token;
use asm_expr::{UnaryOp, combined, turned};
use expr_texts::operator_of;

/// What the parts of an expression are worth, from the leaves up.
pub trait Leaves {
    /// What a part is worth.
    type Value: Copy;

    /// The tree is worth this.
    ghost worth: { Self → Tree → Self.Value → Type 0 };

    /// What the token is worth as a leaf. None says nothing of it.
    fn leaf(&self, token: &Token) -> Option<Self::Value>
        ensures { FindsLeafWorth (worth self.now) (spelled token.now) result };

    /// What the prefix operator makes of an operand that is worth this. None says nothing of it.
    fn turned(&self, op: UnaryOp, operand: Self::Value) -> Option<Self::Value>
        ensures { FindsTurned (worth self.now) op operand result };

    /// What the operator that the token is makes of two operands. None says nothing of it.
    fn joined(&self, operator: &Token, left: Self::Value, right: Self::Value) -> Option<Self::Value>
        ensures { FindsJoined (worth self.now) (spelled operator.now) left right result };
}

/// What the operator that the token is gives, if it is one of the rarer ones.
#[inline(never)]
fn rarer_value(token: &Token, a: u64, b: u64) -> Option<u64>
    ensures { FindsValue (spelled token.now) a b result }
{
    combined(operator_of(token)?, a, b).ok()
}

/// What the operator that the token is gives.
#[inline(always)]
#[tactic(auto, unfolding(expr_texts::specs::Operators::operator_by, expr_texts::specs::Operators::operator_byte, asm_expr::specs::Arithmetic::combined))]
pub fn operator_value(token: &Token, a: u64, b: u64) -> Option<u64>
    ensures { FindsValue (spelled token.now) a b result }
{
    match token.bytes {
        [b'+'] => Some(a.wrapping_add(b)),
        [b'-'] => Some(a.wrapping_sub(b)),
        [b'*'] => Some(a.wrapping_mul(b)),
        [b'&'] => Some(a & b),
        [b'|'] => Some(a | b),
        _ => rarer_value(token, a, b),
    }
}

/// Numbers are worth themselves, and no other leaf is worth anything.
#[derive(Clone, Copy)]
pub struct Numbers;

impl Leaves for Numbers {
    type Value = u64;

    ghost worth = { λ numbers tree value. IsConstantTree tree value };

    #[inline(always)]
    fn leaf(&self, token: &Token) -> Option<u64> {
        leaf(token)
    }

    #[inline(always)]
    fn turned(&self, op: UnaryOp, operand: u64) -> Option<u64> {
        Some(turned(op, operand))
    }

    #[inline(always)]
    fn joined(&self, operator: &Token, left: u64, right: u64) -> Option<u64> {
        operator_value(operator, left, right)
    }
}
