//! What becomes of the head of the list, and what it is refused for.

ghost use Rattle.std.specs.Prelude.{◌≢◌};
ghost use Rattle.macro_words.specs.declared.causes.MacroCause.TheVariants.{FileTooLarge};

use crate::open_parts::Part;
use asm_base::Pos;
use macro_words::MacroCause;

/// A fault of expansion, and where it stands. It is not that of a file that is too large.
#[derive(Clone, Copy)]
pub(crate) struct MacroFault {
    pub cause: MacroCause,
    pub pos: Pos,
    ghost own: { cause ≢ FileTooLarge },
}

/// What became of the head of the list, for the part that it was taken from.
#[derive(Drop)]
pub(crate) enum Turned {
    /// The part goes on.
    Stays,
    /// Another part stands in front of it.
    Enters(Part),
    /// It is gone.
    Leaves,
}
