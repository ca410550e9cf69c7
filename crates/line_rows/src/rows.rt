//! A row of a line table, the registers that stay from row to row, and the operations (DWARF 5, section 6.2).

use arrayvec::ArrayVec;

/// A row: what is said of the instructions from a place on.
#[derive(Clone, Copy, Debug, PartialEq, Eq)]
pub struct LineRow {
    pub file: u32,
    pub line: u32,
    pub column: u32,
    pub is_stmt: bool,
    pub isa: u32,
    pub discriminator: u32,
    pub basic_block: bool,
    pub prologue_end: bool,
    pub epilogue_begin: bool,
}

/// The registers that stay as they are behind a row.
#[derive(Clone, Copy, Debug, PartialEq, Eq)]
pub struct Registers {
    pub file: u32,
    pub line: u32,
    pub column: u32,
    pub is_stmt: bool,
    pub isa: u32,
}

/// An operation of the machine.
#[derive(Clone, Copy, Debug)]
pub enum LineOp {
    /// A row is appended.
    Copy,
    /// The address rises.
    AdvancePc(u64),
    /// The line rises or falls.
    AdvanceLine(i64),
    SetFile(u64),
    SetColumn(u64),
    /// is_stmt is turned over.
    NegateStmt,
    SetBasicBlock,
    SetPrologueEnd,
    SetEpilogueBegin,
    SetIsa(u64),
    /// The line and the address change, and a row is appended.
    Special(i64, u64),
    /// A row that ends the sequence is appended, and the registers begin anew.
    EndSequence,
    SetAddress(u64),
    SetDiscriminator(u64),
    /// Nothing changes.
    Skipped,
}

/// A row as it is appended: its distance from the sequence's first address, and None where it ends the sequence.
pub type Line = (u64, Option<LineRow>);

/// The bytes of a row, or of a part of it.
pub type RowBytes = ArrayVec<u8, 80>;
