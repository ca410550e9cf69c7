//! The bytes that strings stand for (GNU as manual, ".ascii").

ghost use Rattle.std.specs.Prelude.{◌≡◌, ◌++◌, map, OnOk};
ghost use Rattle.asm_base.specs.Refusals.{Gives};
ghost use Rattle.asm_base.specs.Strings as strings;
ghost use Rattle.asm_base.specs.Tokens.{spelled};
ghost use Rattle.asm_operands.specs.Operands.{joined_strings, string_of, behind, end_byte};
ghost use Rattle.asm_operands.specs.OperandParts.{operands_left};

use crate::directive_operands::Operands;
use crate::place_faults::{PlaceCause, PlaceFault};
use asm_base::{Token, TokenKind, string_value};
use expr_texts::between_quotes;
use std::alloc::{AllocError, Global};

/// The zero byte that ends a string, where it is asked for.
fn end_byte(ended: bool) -> &'static [u8]
    ensures { result.now ≡ end_byte ended }
{
    if ended { &[0] } else { &[] }
}

/// Appends what the bytes between quotes stand for, which is themselves where no backslash is among
/// them.
#[tactic(auto, using(crate::proofs::PlainStrings::plain_value))]
fn append_value(alloc: Global, out: &mut Vec<u8>, inner: &[u8]) -> Result<(), AllocError>
    ensures { OnOk result (out.new.items ≡ out.old.items ++ strings.string_value inner.now) }
{
    if inner.contains(&b'\\') {
        out.extend_from_slice(&string_value(alloc, inner)?)
    } else {
        out.extend_from_slice(inner)
    }
}

/// Appends what the string that an operand is stands for.
#[tactic(auto, unfolding(crate::specs::Operands::string_of, crate::specs::Operands::behind))]
fn append_string(alloc: Global, out: &mut Vec<u8>, operand: &[Token]) -> Result<(), PlaceFault>
    ensures { Gives out.new.items result
        (behind out.old.items (string_of (map spelled operand.now))) }
{
    match operand {
        [token] if token.kind == TokenKind::String => {
            append_value(alloc, out, between_quotes(token.bytes))?;
            Ok(())
        }
        _ => Err(PlaceFault::Fault(PlaceCause::BadOperand)),
    }
}

/// Makes the bytes that the strings of operands stand for, one after the other.
#[tactic(auto, unfolding(crate::specs::Operands::joined_strings, crate::specs::Operands::behind))]
pub fn joined_strings(
    alloc: Global,
    out: &mut Vec<u8>,
    ended: bool,
    operands: Operands,
) -> Result<(), PlaceFault>
    ensures { Gives out.new.items result (joined_strings ended (operands_left operands.entry)) }
{
    out.clear();
    for operand in operands {
        append_string(alloc, out, operand)?;
        out.extend_from_slice(end_byte(ended))?;
    }
    Ok(())
}
