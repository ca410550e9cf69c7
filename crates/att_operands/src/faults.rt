//! What the operands of an instruction are refused for.

use asm_base::Refusal;
use asm_expr::ExprCause;
use thiserror::Error;

/// A fault of an instruction as it is written.
#[derive(Clone, Copy, Debug, PartialEq, Eq, Error)]
pub enum OperandCause {
    /// No row of the instruction table has the name.
    #[error("unknown mnemonic")]
    UnknownMnemonic,
    /// An operand of an expression or a closing parenthesis is missing, or a token spells no number
    /// and no name.
    #[error("bad expression")]
    BadExpression,
    /// A number is above 2^64 - 1.
    #[error("number is too wide")]
    NumberTooWide,
    /// An expression has too many constructs open at one place, or its tree is too high.
    #[error("expression is nested too deeply")]
    ExpressionTooDeep,
    /// An operand has no spelling.
    #[error("bad operand")]
    BadOperand,
    /// Rows of several operand sizes take such operands, and nothing fixes one.
    #[error("unknown operand size")]
    UnknownOperandSize,
}

/// Why the reading of operands is refused: they have a fault, or memory ran out.
pub type OperandFault = Refusal<OperandCause>;

impl From<ExprCause> for OperandCause {
    ghost use Rattle.std.specs.Prelude.{◌≡◌};
    ghost use Rattle.att_operands.specs.Values.{stated};

    ghost from_gives = { λ cause e. e ≡ stated cause };

    fn from(cause: ExprCause) -> OperandCause {
        match cause {
            ExprCause::NumberTooWide => OperandCause::NumberTooWide,
            ExprCause::ExpressionTooDeep => OperandCause::ExpressionTooDeep,
            // No reading of an expression has another.
            _ => OperandCause::BadExpression,
        }
    }
}
