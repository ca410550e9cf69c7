//! The directives of the syntax of instructions (GNU as manual, "AT&T Syntax versus Intel Syntax").

ghost use Rattle.std.specs.Prelude.{◌≡◌, map};
ghost use Rattle.asm_base.specs.Tokens.{spelled};
ghost use Rattle.asm_place.specs.SyntaxWords as spec;
ghost use Rattle.asm_place.specs.SyntaxWords.{place_syntax};
ghost use Rattle.asm_values.specs.PlacedBy.{PlacesBy};

use asm_base::Token;
use asm_operands::{PlaceCause, PlaceFault, is_name};
use asm_values::Assembler;
use asm_words::Syntax;

/// Whether the word says that registers are named as in this syntax.
fn says_names(syntax: Syntax, word: &Token) -> bool
    ensures { result ≡ spec.says_names syntax (spelled word.now) }
{
    match syntax {
        Syntax::Att => is_name(word) && word.bytes == b"prefix".as_slice(),
        Syntax::Intel => is_name(word) && word.bytes == b"noprefix".as_slice(),
    }
}

/// `.att_syntax` and `.intel_syntax`: instructions are in this syntax from here on.
#[inline(never)]
#[tactic(auto, unfolding(crate::specs::SyntaxWords::place_syntax))]
pub(crate) fn place_syntax(
    assembler: &mut Assembler,
    syntax: Syntax,
    tokens: &[Token],
) -> Result<(), PlaceFault>
    ensures placed { PlacesBy (place_syntax syntax (map spelled tokens.now))
        assembler.old assembler.new result }
    ensures kept { assembler.new.notes ≡ assembler.old.notes }
{
    let said = match tokens {
        [] => syntax == Syntax::Att,
        [word] => says_names(syntax, word),
        _ => false,
    };
    if !said {
        return Err(PlaceFault::Fault(PlaceCause::BadOperand));
    }
    assembler.syntax = syntax;
    Ok(())
}
