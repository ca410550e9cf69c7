//! The faults of `.cfi_` directives.

use asm_base::Refusal;
use thiserror::Error;

/// A fault of a `.cfi_` directive.
#[derive(Clone, Copy, PartialEq, Eq, Debug, Error)]
pub enum CfiCause {
    /// The instruction that the directive means can't be written: an offset that is factored is no multiple of 8, or one
    /// that is a sum or a difference does not fit 64 signed bits.
    #[error("value out of range")]
    OutOfRange,
    /// No procedure is open.
    #[error("CFI directive outside a procedure")]
    CfiOutsideProcedure,
    /// A procedure begins within one, a directive stands in another section than its procedure, no row is there to be
    /// restored, or a 17th is remembered.
    #[error("CFI states do not balance")]
    UnbalancedCfiState,
}

/// Why a directive is refused.
pub type CfiFault = Refusal<CfiCause>;
