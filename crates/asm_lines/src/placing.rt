//! What places the statements of a source.

ghost use Rattle.std.specs.Prelude.{map, Result};
ghost use Rattle.asm_base.specs.Refusals.{Gives};
ghost use Rattle.asm_base.specs.Tokens.{spelled};
ghost use Rattle.asm_lines.specs.NextStatements.{TokenStatement};

use asm_base::{Pos, Refusal, Token};

/// What places statements. One that refused a statement may be in any state.
pub trait Placer {
    type Fault: Drop;
    /// What comes of one statement.
    ghost placed: { Self → TokenStatement → Result Self Self.Fault };

    /// Places the statement that begins here and has these tokens.
    fn place(&mut self, pos: Pos, tokens: &[Token]) -> Result<(), Refusal<Self::Fault>>
        ensures { Gives self.new result (placed self.old
            (record { file = pos.file; line = pos.line; tokens = map spelled tokens.now })) };
}
