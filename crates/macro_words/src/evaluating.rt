//! Counts and conditions, by what the placer of statements knows (GNU as manual, ".rept" and ".if").

ghost use Rattle.std.specs.Prelude.{◌≡◌, map, IfOk, Ok};
ghost use Rattle.std.specs.Str.{bytes_eq};
ghost use Rattle.asm_base.specs.Refusals.{Returns};
ghost use Rattle.asm_base.specs.Tokens.{spelled};
ghost use Rattle.macro_texts.specs.TokenTexts.{text_of};
ghost use Rattle.macro_words.specs.Conditions as spec;
ghost use Rattle.macro_words.specs.Branches.{verdict_by};

use crate::causes::MacroCause;
use crate::conditions::count_of;
use crate::knowing::KnowingPlacer;
use crate::words::{Condition, Word};
use asm_base::{Refusal, Token};
use macro_texts::{length_to_comma, push_text};
use std::alloc::{AllocError, Global};

/// The text of the tokens.
fn text_of(alloc: Global, tokens: &[Token]) -> Result<Vec<u8>, AllocError>
    ensures { IfOk result (λ text. text.items ≡ text_of (map spelled tokens.now)) }
{
    let mut text = Vec::new(alloc);
    push_text(&mut text, tokens)?;
    Ok(text)
}

/// Whether the tokens have the same text.
fn have_same_text(
    alloc: Global,
    first: &[Token],
    second: &[Token],
) -> Result<bool, Refusal<MacroCause>>
    ensures { Returns result (Ok
        (bytes_eq (text_of (map spelled first.now)) (text_of (map spelled second.now)))) }
{
    let first = text_of(alloc, first)?;
    let second = text_of(alloc, second)?;
    Ok(first == second)
}

/// Whether the texts before and behind the first comma are the same.
#[tactic(auto, using(crate::proofs::SameTexts::same_parts, crate::proofs::SameTexts::no_parts))]
fn same_texts(alloc: Global, operands: &[Token]) -> Result<bool, Refusal<MacroCause>>
    ensures { Returns result (spec.same_texts (map spelled operands.now)) }
{
    let comma = length_to_comma(operands);
    if comma < operands.len() {
        have_same_text(alloc, &operands[..comma], &operands[comma + 1..])
    } else {
        Err(Refusal::Fault(MacroCause::BadMacroLine))
    }
}

/// What a condition asks of the value of the operands.
fn asked<E: KnowingPlacer>(
    known: &E,
    condition: Condition,
    operands: &[Token],
) -> Result<bool, Refusal<MacroCause>>
    ensures { Returns result
        (spec.asked (E.told known.now) condition (map spelled operands.now)) }
{
    Ok(condition.asks(known.value(operands)?))
}

/// Whether a condition holds with these operands.
#[tactic(auto, unfolding(crate::specs::Conditions::holds))]
pub fn holds<E: KnowingPlacer>(
    alloc: Global,
    known: &E,
    condition: Condition,
    operands: &[Token],
) -> Result<bool, Refusal<MacroCause>>
    ensures { Returns result
        (spec.holds (E.told known.now) condition (map spelled operands.now)) }
{
    match condition {
        Condition::Defined => known.is_defined(operands),
        Condition::NotDefined => Ok(!known.is_defined(operands)?),
        Condition::Blank => Ok(operands.is_empty()),
        Condition::NotBlank => Ok(!operands.is_empty()),
        Condition::Same => same_texts(alloc, operands),
        Condition::Different => Ok(!same_texts(alloc, operands)?),
        _ => asked(known, condition, operands),
    }
}

/// Whether a branch begins at a statement of this word, if it has one, with these operands, and is chosen where none
/// was before.
#[tactic(auto, unfolding(crate::specs::Conditions::holds))]
pub fn verdict<E: KnowingPlacer>(
    known: &E,
    word: Option<Word>,
    operands: &[Token],
) -> Result<bool, Refusal<MacroCause>>
    ensures { Returns result (verdict_by (E.told known.now) word (map spelled operands.now)) }
{
    match word {
        Some(Word::Else) => Ok(true),
        Some(Word::ElseIf) => asked(known, Condition::NotZero, operands),
        _ => Ok(false),
    }
}

/// How often a repeat stands with these operands.
#[tactic(auto, unfolding(crate::specs::Conditions::repeat_count))]
pub fn repeat_count<E: KnowingPlacer>(
    known: &E,
    operands: &[Token],
) -> Result<u64, Refusal<MacroCause>>
    ensures { Returns result (spec.repeat_count (E.told known.now) (map spelled operands.now)) }
{
    Ok(count_of(known.value(operands)?))
}
