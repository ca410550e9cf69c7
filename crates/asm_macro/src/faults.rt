//! Why the expansion of a source does not come to its end.

use asm_base::Pos;
use asm_lines::LineCause;
use macro_words::MacroCause;
use thiserror::Error;

/// Why the expansion of a source does not come to its end.
#[derive(Debug, Drop, Error)]
pub enum ExpandFault<F> {
    /// The first fault of the lines of the source itself: it comes before all others.
    #[error("a line of the source has a fault")]
    Lines(LineCause),
    /// A fault of expansion, where it stands.
    #[error("the source is not expanded")]
    Expansion(MacroCause, Pos),
    /// A statement that was handed out is not placed.
    #[error("a statement is not placed")]
    Placing(F),
    /// A file that is included can't be started or read. The input's count of failures has risen.
    #[error("an included file can't be read")]
    Read,
    /// Memory was refused.
    #[error("out of memory")]
    NoMemory,
}
