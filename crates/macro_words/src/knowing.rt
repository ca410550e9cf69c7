//! What counts and conditions ask of the placer of statements.

ghost use Rattle.std.specs.Prelude.{map};
ghost use Rattle.asm_base.specs.Refusals.{Returns};
ghost use Rattle.asm_base.specs.Tokens.{spelled};
ghost use Rattle.macro_words.specs.Conditions.{Knowledge};

use crate::causes::MacroCause;
use asm_base::{Refusal, Token};
use asm_lines::Placer;

/// A placer that knows values and symbols where the next statement stands.
pub trait KnowingPlacer: Placer {
    /// What is known behind the statements placed so far.
    ghost told: { Self → Knowledge };

    /// The value, modulo 2^64, of the one expression that these tokens are.
    fn value(&self, tokens: &[Token]) -> Result<u64, Refusal<MacroCause>>
        ensures { Returns result ((told self.now).value (map spelled tokens.now)) };

    /// Whether the one symbol that these tokens name is defined.
    fn is_defined(&self, tokens: &[Token]) -> Result<bool, Refusal<MacroCause>>
        ensures { Returns result ((told self.now).is_defined (map spelled tokens.now)) };
}
