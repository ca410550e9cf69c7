//! What a line of a macro, a call or a repeat is refused for.

use asm_base::Refusal;
use thiserror::Error;

/// A fault of a line that defines a macro, calls one, or begins a repeat with values.
#[derive(Clone, Copy, Debug, PartialEq, Eq, Error)]
pub enum MacroLineCause {
    /// The line is malformed, or its arguments do not fit the parameters.
    #[error("bad macro line")]
    BadMacroLine,
    /// A call leaves out an argument that is required.
    #[error("missing macro argument")]
    MissingArgument,
}

/// Why a line of a macro is not read: it has a fault, or memory ran out.
pub type MacroLineFault = Refusal<MacroLineCause>;
