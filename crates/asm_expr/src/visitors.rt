//! The visitors that make linear forms and values.

ghost use Rattle.std.specs.Prelude.{◌≡◌};
ghost use Rattle.asm_expr.specs.Trees.{tree_of};
ghost use Rattle.asm_base.specs.Refusals.{Returns};
ghost use Rattle.asm_expr.specs.Linear.{linear, value_of, known_now};
ghost use Rattle.asm_expr.specs.Evaluating.{knowledge_by, NumGives, NameGives, HereGives, UnaryGives, BinaryGives};

use crate::evaluating::{binary_answer, here_form, named_form, unary_answer, value_of};
use crate::faults::{ExprCause, ExprFault};
use crate::folding::fold;
use crate::forms::{Linear, constant_form};
use crate::knowledge::Known;
use crate::trees::{BinaryOp, Expr, UnaryOp, Written};
use crate::visiting::ExprFold;
use std::alloc::Global;

/// Makes the linear form of an expression.
pub struct ToLinear<'a, K> {
    pub alloc: Global,
    pub known: &'a K,
}

impl<'a, K> Drop for ToLinear<'a, K> {
    fn drop(self) {
        let ToLinear { alloc: _, known: _ } = self;
    }
}

impl<'a, K: Known> ExprFold for ToLinear<'a, K> {
    type Out = Result<Linear, ExprFault>;

    ghost num_gives = { NumGives (λ visitor.
        knowledge_by K.told K.meant K.place visitor.known.now) };

    ghost name_gives = { NameGives (λ visitor.
        knowledge_by K.told K.meant K.place visitor.known.now) };

    ghost here_gives = { HereGives (λ visitor.
        knowledge_by K.told K.meant K.place visitor.known.now) };

    ghost unary_gives = { UnaryGives (λ visitor.
        knowledge_by K.told K.meant K.place visitor.known.now) };

    ghost binary_gives = { BinaryGives (λ visitor.
        knowledge_by K.told K.meant K.place visitor.known.now) };

    fn num(&mut self, value: u64) -> Result<Linear, ExprFault> {
        Ok(constant_form(self.alloc, value))
    }

    fn name(&mut self, name: &Written) -> Result<Linear, ExprFault> {
        named_form(self.alloc, self.known, name)
    }

    fn here(&mut self) -> Result<Linear, ExprFault> {
        here_form(self.alloc, self.known)
    }

    fn unary(
        &mut self,
        op: UnaryOp,
        operand: Result<Linear, ExprFault>,
    ) -> Result<Linear, ExprFault> {
        unary_answer(self.alloc, self.known, op, operand)
    }

    fn binary(
        &mut self,
        op: BinaryOp,
        left: Result<Linear, ExprFault>,
        right: Result<Linear, ExprFault>,
    ) -> Result<Linear, ExprFault> {
        binary_answer(self.alloc, self.known, op, left, right)
    }
}

/// Makes the linear form of an expression whose value is asked for.
pub struct KnownNow<'a, K> {
    pub alloc: Global,
    pub known: &'a K,
}

impl<'a, K> Drop for KnownNow<'a, K> {
    fn drop(self) {
        let KnownNow { alloc: _, known: _ } = self;
    }
}

impl<'a, K: Known> ExprFold for KnownNow<'a, K> {
    type Out = Result<Linear, ExprFault>;

    ghost num_gives = { NumGives (λ visitor.
        knowledge_by K.told K.meant K.place visitor.known.now) };

    ghost name_gives = { NameGives (λ visitor.
        knowledge_by K.told K.meant K.place visitor.known.now) };

    ghost here_gives = { HereGives (λ visitor.
        knowledge_by K.told K.meant K.place visitor.known.now) };

    ghost unary_gives = { UnaryGives (λ visitor.
        knowledge_by K.told K.meant K.place visitor.known.now) };

    ghost binary_gives = { BinaryGives (λ visitor.
        knowledge_by K.told K.meant K.place visitor.known.now) };

    fn num(&mut self, value: u64) -> Result<Linear, ExprFault> {
        Ok(constant_form(self.alloc, value))
    }

    fn name(&mut self, name: &Written) -> Result<Linear, ExprFault> {
        named_form(self.alloc, self.known, name)
    }

    fn here(&mut self) -> Result<Linear, ExprFault> {
        here_form(self.alloc, self.known)
    }

    fn unary(
        &mut self,
        op: UnaryOp,
        operand: Result<Linear, ExprFault>,
    ) -> Result<Linear, ExprFault> {
        unary_answer(self.alloc, self.known, op, operand)
    }

    fn binary(
        &mut self,
        op: BinaryOp,
        left: Result<Linear, ExprFault>,
        right: Result<Linear, ExprFault>,
    ) -> Result<Linear, ExprFault> {
        binary_answer(self.alloc, self.known, op, left, right)
    }
}

impl<'a, K: Known> KnownNow<'a, K> {
    /// The value of an expression, by its form. It takes no memory.
    pub fn value(&self, folded: Linear) -> Result<u64, ExprCause>
        ensures { result ≡ value_of folded }
    {
        value_of(&folded)
    }
}

/// The linear form of an expression.
pub fn linear_form<K: Known>(alloc: Global, expr: &Expr, known: &K) -> Result<Linear, ExprFault>
    ensures { let knows = knowledge_by K.told K.meant K.place known.now in
        Returns result (linear knows (tree_of expr.now)) }
{
    let mut visitor = ToLinear { alloc, known };
    fold(expr, &mut visitor)
}

/// The value of an expression, where it is known.
pub fn known_value<K: Known>(alloc: Global, expr: &Expr, known: &K) -> Result<u64, ExprFault>
    ensures { let knows = knowledge_by K.told K.meant K.place known.now in
        Returns result (known_now knows (tree_of expr.now)) }
{
    let mut visitor = KnownNow { alloc, known };
    match fold(expr, &mut visitor) {
        Ok(form) => value_of(&form).map_err(ExprFault::Fault),
        Err(refusal) => Err(refusal),
    }
}
