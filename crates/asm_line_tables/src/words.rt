//! What a `.loc` says (GNU as manual, ".loc").

/// What an expression of a `.loc` is the value of.
#[derive(Clone, Copy)]
pub enum LocValue {
    File,
    Line,
    Column,
    IsStmt,
    Isa,
    Discriminator,
}

/// What a `.loc` says by a name alone.
#[derive(Clone, Copy)]
pub enum LocMark {
    BasicBlock,
    PrologueEnd,
    EpilogueBegin,
}

/// An option of a `.loc`.
#[derive(Clone, Copy)]
pub enum LocOption {
    Mark(LocMark),
    Value(LocValue),
}

/// The marks that stand.
#[derive(Clone, Copy)]
pub struct LocMarks {
    pub basic_block: bool,
    pub prologue_end: bool,
    pub epilogue_begin: bool,
}

/// The values, each in its range. What is left out is None or 0.
#[derive(Clone, Copy)]
pub struct LocNumbers {
    pub file: u32,
    pub line: u32,
    pub column: u32,
    pub is_stmt: Option<bool>,
    pub isa: Option<u32>,
    pub discriminator: u32,
}
