//! Why a step of the placing ends without its result.

ghost use Rattle.std.specs.Prelude.{◌≡◌};

use asm_base::{FragCause, Refusal, SymCause};
use asm_expr::ExprCause;

/// A fault of a statement that placing answers.
#[derive(Clone, Copy, Drop)]
pub enum PlaceCause {
    /// An operand or a closing parenthesis is missing.
    BadExpression,
    /// A number is above 2^64 - 1.
    NumberTooWide,
    /// More than 64 parentheses and prefix operators are open, or the tree is higher than 256.
    ExpressionTooDeep,
    /// The right side of `/` or `%` is 0.
    DivisionByZero,
    /// A value is needed where it is not known.
    ValueNotKnown,
    /// An operator other than `+` and `-` has an operand that is no constant.
    NotASumOfSymbols,
    /// A directive says that the source has a fault.
    ErrorDirective,
    /// No instruction has this name.
    UnknownMnemonic,
    /// No directive has this name.
    UnknownDirective,
    /// An operand has not its form, is missing, or is one too many.
    BadOperand,
    /// The instruction has no form with these operands.
    NoSuchForm,
    /// Nothing fixes the size of the operation.
    UnknownOperandSize,
    /// A number is outside its range.
    OutOfRange,
    /// A section is used against its flags or its type.
    BadSection,
    /// A symbol is defined that is defined already.
    SymbolAlreadyDefined,
    /// A symbol is used in a way that its other uses rule out.
    BadSymbolUse,
    /// A directive of a procedure's frame table stands where no procedure is open.
    CfiOutsideProcedure,
    /// A procedure begins in another one, has a directive in another section, or remembers and restores rows that do not
    /// pair.
    UnbalancedCfiState,
    /// A row of the line table is of a file to which no number was given.
    UnassignedFileNumber,
    /// A number is given to another file than the one that has it.
    FileNumberInUse,
}

/// Why a step refuses a statement.
pub type PlaceFault = Refusal<PlaceCause>;

impl From<ExprCause> for PlaceCause {
    ghost use Rattle.asm_operands.specs.ExprFaults.{stated};

    ghost from_gives = { λ cause e. e ≡ stated cause };

    fn from(cause: ExprCause) -> PlaceCause {
        match cause {
            ExprCause::BadExpression => PlaceCause::BadExpression,
            ExprCause::NumberTooWide => PlaceCause::NumberTooWide,
            ExprCause::ExpressionTooDeep => PlaceCause::ExpressionTooDeep,
            ExprCause::DivisionByZero => PlaceCause::DivisionByZero,
            ExprCause::ValueNotKnown => PlaceCause::ValueNotKnown,
            ExprCause::NotASumOfSymbols => PlaceCause::NotASumOfSymbols,
        }
    }
}

impl From<SymCause> for PlaceCause {
    ghost use Rattle.asm_operands.specs.LayerFaults.{symbol_fault};

    ghost from_gives = { λ cause e. e ≡ symbol_fault cause };

    fn from(cause: SymCause) -> PlaceCause {
        match cause {
            SymCause::SymbolAlreadyDefined => PlaceCause::SymbolAlreadyDefined,
            SymCause::BadSymbolUse => PlaceCause::BadSymbolUse,
        }
    }
}

impl From<FragCause> for PlaceCause {
    ghost use Rattle.asm_operands.specs.LayerFaults.{section_fault};

    ghost from_gives = { λ cause e. e ≡ section_fault cause };

    fn from(cause: FragCause) -> PlaceCause {
        match cause {
            FragCause::BadSection => PlaceCause::BadSection,
        }
    }
}
