//! Where the statements of a text stand.

ghost use Rattle.std.specs.Prelude.{◌≡◌};
ghost use Rattle.macro_blocks.specs.Places as spec;

use asm_base::Pos;

/// Where the statements of a text stand.
#[derive(Clone, Copy, Debug, PartialEq, Eq)]
pub enum Place {
    /// In the file of this number, each on its own line.
    File(u32),
    /// All at the call or the repeat that made the text.
    At(Pos),
}

impl Place {
    ghost use Rattle.std.specs.Prelude.{◌≡◌};
    ghost use Rattle.macro_blocks.specs.Places as spec;

    /// Where a statement of this line stands.
    #[inline(always)]
    pub(crate) fn pos_in(self, line: u32) -> Pos
        ensures { result ≡ spec.pos_in self line }
    {
        match self {
            Place::File(file) => Pos { file, line },
            Place::At(pos) => pos,
        }
    }
}
