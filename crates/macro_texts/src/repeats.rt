//! The lines of `.irp` and `.irpc` (GNU as manual, ".irp" and ".irpc").

ghost use Rattle.std.specs.Prelude.{◌≡◌, ◌++◌, ◌<◌, map, length, IfOk, OnOk};
ghost use Rattle.asm_base.specs.Refusals.{GivesBy};
ghost use Rattle.asm_base.specs.Tokens.{spelled};
ghost use Rattle.macro_texts.specs.Repeats as spec;
ghost use Rattle.macro_texts.specs.RepeatsSeen.{each_seen, texts, IsValueRead};

use crate::arguments::{passed_length, up_to_comma};
use crate::causes::{MacroLineCause, MacroLineFault};
use crate::token_texts::{lone_text, push_value, value_of};
use asm_base::Token;
use asm_operands::{is_mark, is_name};
use std::alloc::{AllocError, Global};

/// What the line of a repeat with values says.
#[derive(Drop)]
pub struct EachLine {
    pub name: Vec<u8>,
    /// The text that the name stands for in each copy.
    pub values: Vec<Vec<u8>>,
}

/// The text of the value that begins here.
fn first_value(alloc: Global, tokens: &[Token]) -> Result<Vec<u8>, AllocError>
    ensures { IfOk result (λ text. text.items ≡ spec.first_value (map spelled tokens.now)) }
{
    let mut text = Vec::new(alloc);
    push_value(&mut text, value_of(up_to_comma(tokens)))?;
    Ok(text)
}

/// Appends the value that begins here, and answers how many tokens it has with the comma behind it.
fn push_first_value(
    alloc: Global,
    values: &mut Vec<Vec<u8>>,
    tokens: &[Token],
) -> Result<usize, AllocError>
    requires { 0 < length tokens.now }
    ensures { IfOk result (λ n. IsValueRead (texts values.old.items) (texts values.new.items)
        (map spelled tokens.now) n) }
{
    let value = first_value(alloc, tokens)?;
    values.push(value)?;
    Ok(passed_length(false, tokens))
}

/// The values between commas.
fn values_of(alloc: Global, tokens: &[Token]) -> Result<Vec<Vec<u8>>, AllocError>
    ensures { IfOk result (λ values. texts values.items ≡ spec.values_of (map spelled tokens.now)) }
{
    let mut values = Vec::new(alloc);
    let mut at = 0;
    while at < tokens.len() {
        at += push_first_value(alloc, &mut values, &tokens[at..])?;
    }
    Ok(values)
}

/// Appends the characters of a text, each alone.
fn push_characters(alloc: Global, values: &mut Vec<Vec<u8>>, bytes: &[u8]) -> Result<(), AllocError>
    ensures { OnOk result (texts values.new.items
        ≡ texts values.old.items ++ map spec.alone bytes.now) }
{
    for byte in bytes {
        let value = Vec::from_slice(alloc, &[*byte])?;
        values.push(value)?;
    }
    Ok(())
}

/// The characters of tokens, those of a string between its quotes.
fn characters_of(alloc: Global, tokens: &[Token]) -> Result<Vec<Vec<u8>>, AllocError>
    ensures { IfOk result (λ values. texts values.items
        ≡ spec.characters_of (map spelled tokens.now)) }
{
    let mut values = Vec::new(alloc);
    for token in tokens {
        push_characters(alloc, &mut values, lone_text(token))?;
    }
    Ok(values)
}

/// Puts the empty text in place of no values.
fn or_empty(alloc: Global, values: &mut Vec<Vec<u8>>) -> Result<(), AllocError>
    ensures { OnOk result (texts values.new.items ≡ spec.or_empty (texts values.old.items)) }
{
    if values.is_empty() {
        values.push(Vec::new(alloc))?;
    }
    Ok(())
}

/// What stands behind the name: nothing, or a comma and values.
fn behind_name<'t, 'a>(tokens: &'t [Token<'a>]) -> Result<&'t [Token<'a>], MacroLineFault>
    ensures { GivesBy (λ rest. map spelled rest.now) result
        (spec.behind_name (map spelled tokens.entry.now)) }
{
    match tokens {
        [] => Ok(tokens),
        [comma, rest @ ..] if is_mark(comma, b',') => Ok(rest),
        _ => Err(MacroLineFault::Fault(MacroLineCause::BadMacroLine)),
    }
}

/// What stands behind `.irp`: a name, and behind a comma the values between commas.
pub fn irp_line(alloc: Global, tokens: &[Token]) -> Result<EachLine, MacroLineFault>
    ensures { GivesBy each_seen result (spec.irp_line (map spelled tokens.now)) }
{
    match tokens {
        [name, rest @ ..] if is_name(name) => {
            let mut values = values_of(alloc, behind_name(rest)?)?;
            or_empty(alloc, &mut values)?;
            let name = Vec::from_slice(alloc, name.bytes)?;
            Ok(EachLine { name, values })
        }
        _ => Err(MacroLineFault::Fault(MacroLineCause::BadMacroLine)),
    }
}

/// What stands behind `.irpc`: a name, and behind a comma the characters.
pub fn irpc_line(alloc: Global, tokens: &[Token]) -> Result<EachLine, MacroLineFault>
    ensures { GivesBy each_seen result (spec.irpc_line (map spelled tokens.now)) }
{
    match tokens {
        [name, rest @ ..] if is_name(name) => {
            let mut values = characters_of(alloc, behind_name(rest)?)?;
            or_empty(alloc, &mut values)?;
            let name = Vec::from_slice(alloc, name.bytes)?;
            Ok(EachLine { name, values })
        }
        _ => Err(MacroLineFault::Fault(MacroLineCause::BadMacroLine)),
    }
}
