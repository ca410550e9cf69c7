//! One way over an expression, for every visitor.

ghost use Rattle.asm_expr.specs.Folds.{Folds};
ghost use Rattle.asm_expr.specs.Trees.{tree_of};

use crate::trees::Expr;
use crate::visiting::ExprFold;

/// The visitor's answer for the expression: operands from left to right, then the operator.
pub fn fold<V: ExprFold>(expr: &Expr, visitor: &mut V) -> V::Out
    ensures { Folds V.num_gives V.name_gives V.here_gives V.unary_gives V.binary_gives
        (tree_of expr.now) visitor.old result visitor.new }
{
    match expr {
        Expr::Num(value) => visitor.num(*value),
        Expr::Name(name) => visitor.name(name),
        Expr::Here => visitor.here(),
        Expr::Unary(op, operand) => {
            let below = fold(operand, visitor);
            visitor.unary(*op, below)
        }
        Expr::Binary(op, left, right) => {
            let before = fold(left, visitor);
            let behind = fold(right, visitor);
            visitor.binary(*op, before, behind)
        }
    }
}
