//! A statement where it stands in a source, and all statements of a source.

use asm_base::Pos;
use std::marker::Model;
use std::slice;

/// A statement: the bytes of the source from its first to its last one that is in no blank and no comment. Comments between these are included.
#[derive(Clone, Copy, Debug)]
pub struct Statement<'a> {
    /// The file, and the line of the first byte.
    pub pos: Pos,
    pub bytes: &'a [u8],
}

/// The statements of one source, in order.
#[derive(Drop)]
pub struct Statements<'a> {
    pub(crate) items: Vec<Statement<'a>>,
}

impl<'a> Model for Statements<'a> {
    ghost use Rattle.std.specs.Prelude.{List, map};
    ghost use Rattle.asm_lines.specs.Statements.{StatementAt};
    ghost use Rattle.asm_lines.specs.Seen.{seen};

    ghost Value = { List StatementAt };

    ghost view = { λ s. map seen s.items.items };
}

impl<'a> Statements<'a> {
    ghost use Rattle.std.specs.Prelude.{◌≡◌, map};
    ghost use Rattle.std.specs.Slice.Iter.{iter_rest};
    ghost use Rattle.asm_lines.specs.Seen.{seen};

    /// All of them.
    pub fn as_slice(&self) -> &[Statement<'a>]
        ensures { map seen result.now ≡ self.now }
    {
        self.items.as_slice()
    }

    /// One after the other.
    pub fn iter(&self) -> slice::Iter<'_, Statement<'a>>
        ensures { map seen (iter_rest result) ≡ self.now }
    {
        self.items.iter()
    }
}
