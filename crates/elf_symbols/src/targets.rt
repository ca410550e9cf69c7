//! What relocations name: sections and symbols.

/// What a relocation names.
#[derive(Clone, Copy)]
pub enum Target {
    /// The section of this number, by the symbol that stands for it.
    OfSection(usize),
    /// The symbol at this index, in first-seen order.
    OfSymbol(usize),
}

/// A mark for each section and each symbol: whether a relocation names it.
#[derive(Drop)]
pub struct Named {
    pub sections: Vec<bool>,
    pub symbols: Vec<bool>,
    /// Whether a relocation asks for the symbol's offset from the thread pointer.
    pub thread_locals: Vec<bool>,
}
