//! Faults and warnings that a source asks for (GNU as manual, ".err", ".error", ".warning").

ghost use Rattle.std.specs.Prelude.{◌≡◌, map, IfOk};
ghost use Rattle.asm_base.specs.Tokens.{spelled};
ghost use Rattle.asm_place.specs.Remarks.{place_error, place_warning, string_if, last_string};
ghost use Rattle.asm_values.specs.Answers.{KeepsNotes};
ghost use Rattle.asm_values.specs.PlacedBy.{PlacesBy};

use asm_base::{Note, Noted, Pos, Text, Token, TokenKind, string_value};
use asm_declarations::one_string;
use asm_operands::{PlaceCause, PlaceFault};
use asm_values::Assembler;
use expr_texts::between_quotes;
use std::alloc::{AllocError, Global};

/// `.error` with its text, or `.err`: a fault.
#[tactic(auto, unfolding(crate::specs::Remarks::place_error))]
pub(crate) fn place_error(
    assembler: &mut Assembler,
    said: bool,
    tokens: &[Token],
) -> Result<(), PlaceFault>
    ensures placed { PlacesBy (λ placed. place_error said (map spelled tokens.now))
        assembler.old assembler.new result }
    ensures kept { assembler.new.notes ≡ assembler.old.notes }
{
    if said {
        one_string(assembler.alloc, tokens)?;
    } else if !tokens.is_empty() {
        return Err(PlaceFault::Fault(PlaceCause::BadOperand));
    }
    Err(PlaceFault::Fault(PlaceCause::ErrorDirective))
}

/// `.warning`: a note, unless no warning is to be made.
#[tactic(auto, unfolding(crate::specs::Remarks::place_warning))]
pub(crate) fn place_warning(
    assembler: &mut Assembler,
    pos: Pos,
    tokens: &[Token],
) -> Result<(), PlaceFault>
    ensures placed { PlacesBy (place_warning pos (map spelled tokens.now))
        assembler.old assembler.new result }
    ensures kept { KeepsNotes result assembler.old.notes assembler.new.notes }
{
    let text = one_string(assembler.alloc, tokens)?;
    if assembler.no_warn {
        return Ok(());
    }
    let note = Note::Written(Text::new(text));
    assembler.notes.add(Noted { note, pos })?;
    Ok(())
}

/// What the string stands for that a token is, if it is one.
fn string_if(alloc: Global, token: &Token) -> Result<Option<Text>, AllocError>
    ensures { IfOk result (λ text. text ≡ string_if (spelled token.now)) }
{
    match token.kind {
        TokenKind::String => {
            let value = string_value(alloc, between_quotes(token.bytes))?;
            Ok(Some(Text::new(value)))
        }
        _ => Ok(None),
    }
}

/// What the string stands for that the tokens end with, if they do.
#[tactic(auto, using(crate::proofs::RemarkLemmas::last_there, crate::proofs::RemarkLemmas::last_missing))]
pub(crate) fn last_string(alloc: Global, tokens: &[Token]) -> Result<Option<Text>, AllocError>
    ensures { IfOk result (λ text. text ≡ last_string (map spelled tokens.now)) }
{
    match tokens.last() {
        Some(token) => string_if(alloc, token),
        None => Ok(None),
    }
}
