//! The faults of lines as those of expansion.

ghost use Rattle.std.specs.Prelude.{◌≡◌};
ghost use Rattle.macro_words.specs.Files.{line_of_cause};
ghost use Rattle.macro_words.specs.Statements as spec;

use crate::causes::MacroCause;
use asm_lines::LineCause;
use macro_texts::MacroLineCause;

/// A fault of the lines, without its line.
pub fn line_cause(cause: LineCause) -> MacroCause
    ensures { result ≡ spec.line_cause cause }
{
    match cause {
        LineCause::NulByte(_) => MacroCause::NulByte,
        LineCause::UnclosedString(_) => MacroCause::UnclosedString,
        LineCause::UnclosedComment(_) => MacroCause::UnclosedComment,
        LineCause::StatementTooLong(_) => MacroCause::StatementTooLong,
    }
}

/// The line of a fault of the lines.
pub fn line_of_cause(cause: LineCause) -> u32
    ensures { result ≡ line_of_cause cause }
{
    match cause {
        LineCause::NulByte(line)
        | LineCause::UnclosedString(line)
        | LineCause::UnclosedComment(line)
        | LineCause::StatementTooLong(line) => line,
    }
}

/// A fault of a line of a macro as one of expansion.
pub fn raised(cause: MacroLineCause) -> MacroCause
    ensures { result ≡ spec.raised cause }
{
    match cause {
        MacroLineCause::BadMacroLine => MacroCause::BadMacroLine,
        MacroLineCause::MissingArgument => MacroCause::MissingArgument,
    }
}
