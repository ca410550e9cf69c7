//! Why sections and symbols have no object.

use asm_base::{Pos, Refusal};
use thiserror::Error;

/// A fault that shows when the object is made. They are looked for in this order.
#[derive(Clone, Copy, Debug, PartialEq, Eq, Error)]
pub enum ObjectCause {
    /// The symbol at this index, in first-seen order, must be defined in this file and is not.
    #[error("undefined local symbol")]
    UndefinedLocalSymbol(usize),
    /// A field of this statement has neither a value nor a relocation.
    #[error("no relocation for this value")]
    NoRelocation(Pos),
    /// The size of the symbol at this index has no value.
    #[error("no relocation for this size")]
    SizeNotKnown(usize),
}

/// Why there is no object: a fault, or want of memory.
pub type ObjectFault = Refusal<ObjectCause>;
