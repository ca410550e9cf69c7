//! The text of a body.

ghost use Rattle.std.specs.Prelude.{◌≡◌, ◌++◌, [], ◌∷◌, map, OnOk};
ghost use Rattle.asm_base.specs.Tokens.{spelled};
ghost use Rattle.macro_texts.specs.TokenTexts.{text_of};

use asm_base::Token;
use macro_texts::push_text;
use std::alloc::AllocError;

/// Appends the text of a statement, on a line of its own.
pub fn push_statement(text: &mut Vec<u8>, tokens: &[Token]) -> Result<(), AllocError>
    ensures { OnOk result (text.new.items
        ≡ text.old.items ++ (text_of (map spelled tokens.now) ++ 10 ∷ [])) }
{
    push_text(text, tokens)?;
    text.extend_from_slice(b"\n")
}
