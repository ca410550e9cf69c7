//! The faults of the directives of line tables.

use asm_base::Refusal;
use thiserror::Error;

/// A fault of a `.file` with a number, or of a `.loc`.
#[derive(Clone, Copy, PartialEq, Eq, Debug, Error)]
pub enum LineTableCause {
    /// A `.loc` names a file number that no `.file` before it gave.
    #[error("file number is not assigned")]
    UnassignedFileNumber,
    /// A `.file` gives a number again with another directory or name.
    #[error("file number is already in use")]
    FileNumberInUse,
}

/// Why a directive is refused.
pub type LineTableFault = Refusal<LineTableCause>;
