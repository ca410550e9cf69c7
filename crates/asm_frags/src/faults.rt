//! Why a call on sections is refused.

pub use asm_base::FragCause;
use asm_base::Refusal;

/// Why a call on sections is refused.
pub type FragFault = Refusal<FragCause>;
