//! Why a call of the symbol map is refused.

use asm_base::Refusal;
pub use asm_base::SymCause;

/// Why a call of the symbol map is refused.
pub type SymFault = Refusal<SymCause>;
