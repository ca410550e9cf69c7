//! What goes over an expression from its leaves up.

ghost use Rattle.std.specs.Prelude.{ℕ};
ghost use Rattle.asm_expr.specs.declared.trees.Written.{Written};
ghost use Rattle.asm_expr.specs.declared.trees.UnaryOp.{UnaryOp};
ghost use Rattle.asm_expr.specs.declared.trees.BinaryOp.{BinaryOp};

use crate::trees::{BinaryOp, UnaryOp, Written};

/// A visitor of expressions: an answer for each part, made of the answers for its operands.
pub trait ExprFold {
    /// The answer for a part.
    type Out;

    /// The visitor before, the number, the answer, and the visitor after.
    ghost num_gives: { Self → ℕ → Self.Out → Self → Type 0 };

    /// The visitor before, the name, the answer, and the visitor after.
    ghost name_gives: { Self → Written → Self.Out → Self → Type 0 };

    /// The visitor before, the answer, and the visitor after.
    ghost here_gives: { Self → Self.Out → Self → Type 0 };

    /// The visitor before, the operator, the answer for the operand, the answer, and the visitor
    /// after.
    ghost unary_gives: { Self → UnaryOp → Self.Out → Self.Out → Self → Type 0 };

    /// The visitor before, the operator, the answers for the operands, the answer, and the visitor
    /// after.
    ghost binary_gives: { Self → BinaryOp → Self.Out → Self.Out → Self.Out → Self → Type 0 };

    /// The answer for a number.
    fn num(&mut self, value: u64) -> Self::Out
        ensures { num_gives self.old value result self.new };

    /// The answer for a name.
    fn name(&mut self, name: &Written) -> Self::Out
        ensures { name_gives self.old name.now result self.new };

    /// The answer for the place of the statement.
    fn here(&mut self) -> Self::Out
        ensures { here_gives self.old result self.new };

    /// The answer for a prefix operator, by the one for its operand.
    fn unary(&mut self, op: UnaryOp, operand: Self::Out) -> Self::Out
        ensures { unary_gives self.old op operand result self.new };

    /// The answer for an operator, by those for its operands.
    fn binary(&mut self, op: BinaryOp, left: Self::Out, right: Self::Out) -> Self::Out
        ensures { binary_gives self.old op left right result self.new };
}
