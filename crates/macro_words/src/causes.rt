//! What expansion is refused for.

use thiserror::Error;

/// A fault of expansion: of the lines of a text, of an expression, of a line of a macro, of blocks and of their number.
#[derive(Clone, Copy, Debug, PartialEq, Eq, Error)]
pub enum MacroCause {
    /// A byte 0.
    #[error("NUL byte in source")]
    NulByte,
    /// A string does not close on its line.
    #[error("string is not closed")]
    UnclosedString,
    /// A block comment does not close.
    #[error("comment is not closed")]
    UnclosedComment,
    /// A statement has more than 65536 bytes, those of comments not counted.
    #[error("statement is too long")]
    StatementTooLong,
    /// A source file has more than 2^26 bytes.
    #[error("source file is too large")]
    FileTooLarge,
    /// An operand or a closing parenthesis is missing.
    #[error("bad expression")]
    BadExpression,
    /// A number is above 2^64 - 1.
    #[error("number is too wide")]
    NumberTooWide,
    /// More than 64 parentheses and prefix operators are open, or the tree is higher than 256.
    #[error("expression is nested too deeply")]
    ExpressionTooDeep,
    /// The right side of `/` or `%` is 0.
    #[error("division by zero")]
    DivisionByZero,
    /// A count or a condition is not known.
    #[error("value is not known here")]
    ValueNotKnown,
    /// An operator other than `+` and `-` has an operand that is no constant.
    #[error("expression is not a sum of symbols")]
    NotASumOfSymbols,
    /// A line is malformed, or its arguments do not fit the parameters.
    #[error("bad macro line")]
    BadMacroLine,
    /// A call leaves out an argument that is required.
    #[error("missing macro argument")]
    MissingArgument,
    /// A block is open at the end of its file, call or repeat.
    #[error("block is not closed")]
    UnclosedBlock,
    /// The end of a block that did not begin.
    #[error("end without a beginning")]
    EndWithoutBeginning,
    /// More than 32 files, or more than 64 calls and repeats, are open.
    #[error("nested too deeply")]
    NestedTooDeeply,
    /// Expansion gives more than 2^22 statements.
    #[error("expansion is too long")]
    ExpansionTooLong,
    /// A macro of this name is already defined.
    #[error("macro is already defined")]
    MacroAlreadyDefined,
    /// An included file's name is empty, or no text.
    #[error("bad file name")]
    BadFileName,
}
