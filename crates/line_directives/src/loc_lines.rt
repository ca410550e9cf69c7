//! What one `.loc` says (GNU as manual, ".loc").

use line_rows::LineRow;

/// A `.loc`. What is left out is None, or 0 or false.
#[derive(Clone, Copy, PartialEq, Eq, Debug)]
pub struct LocLine {
    /// The number of its file.
    pub file: u32,
    /// The line, from 1; 0 where none belongs to the code.
    pub line: u32,
    /// The column, from 1; 0 for the line as a whole.
    pub column: u32,
    /// Whether a breakpoint may be set here: from here on, until another `.loc` says so.
    pub is_stmt: Option<bool>,
    /// The instruction set, likewise.
    pub isa: Option<u32>,
    /// Which of the blocks of one line this is.
    pub discriminator: u32,
    /// A basic block begins.
    pub basic_block: bool,
    /// The function's prologue is over.
    pub prologue_end: bool,
    /// The function's epilogue begins.
    pub epilogue_begin: bool,
}

impl LocLine {
    ghost use Rattle.std.specs.Prelude.{◌≡◌};
    ghost use Rattle.line_directives.specs.Rows.{row_with};

    /// The row that it means, where these hold so far.
    pub(crate) fn row(&self, is_stmt: bool, isa: u32) -> LineRow
        ensures { result ≡ row_with is_stmt isa self.now }
    {
        LineRow {
            file: self.file,
            line: self.line,
            column: self.column,
            is_stmt: self.is_stmt.unwrap_or(is_stmt),
            isa: self.isa.unwrap_or(isa),
            discriminator: self.discriminator,
            basic_block: self.basic_block,
            prologue_end: self.prologue_end,
            epilogue_begin: self.epilogue_begin,
        }
    }
}
