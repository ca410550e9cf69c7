//! What calls on symbols and sections are refused for: the causes that statements share.

use thiserror::Error;

/// A fault of a call of the symbol map.
#[derive(Clone, Copy, Debug, PartialEq, Eq, Error)]
pub enum SymCause {
    /// The symbol is defined, and may not be defined so again.
    #[error("symbol already defined")]
    SymbolAlreadyDefined,
    /// The symbol may not be used so, or a limit of the map is passed.
    #[error("bad use of symbol")]
    BadSymbolUse,
}

/// A fault of a section.
#[derive(Clone, Copy, Debug, PartialEq, Eq, Error)]
pub enum FragCause {
    /// A section is named again with other flags, another type or another entry size, there are too many sections, or bytes
    /// are put into one of type `SHT_NOBITS`.
    #[error("bad section")]
    BadSection,
}
