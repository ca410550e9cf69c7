//! What an expression is refused for.

use asm_base::Refusal;
use thiserror::Error;

/// A fault of an expression.
#[derive(Clone, Copy, Debug, PartialEq, Eq, Error)]
pub enum ExprCause {
    /// An operand or a closing parenthesis is missing, or a token spells no number and no name.
    #[error("bad expression")]
    BadExpression,
    /// A number is above 2^64 - 1.
    #[error("number is too wide")]
    NumberTooWide,
    /// More than 64 parentheses and prefix operators are open at one place, or the tree is higher
    /// than 256.
    #[error("expression is too deep")]
    ExpressionTooDeep,
    /// The right side of `/` or `%` is 0.
    #[error("division by zero")]
    DivisionByZero,
    /// A value is needed where symbols are left.
    #[error("value is not known here")]
    ValueNotKnown,
    /// An operator other than `+`, `-` and prefix `-` has an operand that is no constant.
    #[error("not a sum of symbols")]
    NotASumOfSymbols,
}

/// Why a call on expressions is refused: the expression has a fault, or memory ran out.
pub type ExprFault = Refusal<ExprCause>;
