//! The name of an included file (GNU as manual, ".include").

ghost use Rattle.std.specs.Prelude.{◌≡◌, map, string_bytes};
ghost use Rattle.asm_base.specs.Refusals.{GivesBy};
ghost use Rattle.asm_base.specs.Tokens.{spelled};
ghost use Rattle.macro_words.specs.Files as spec;

use crate::causes::MacroCause;
use asm_base::{Refusal, Token, TokenKind, string_value};
use expr_texts::between_quotes;
use std::alloc::Global;

/// Whether there are some bytes, none of them 0.
fn may_name(bytes: &[u8]) -> bool
    ensures { result ≡ spec.may_name bytes.now }
{
    !bytes.is_empty() && !bytes.contains(&0)
}

/// The bytes as a name of a file: some, none of them 0, that are UTF-8.
fn checked_name(name: Vec<u8>) -> Result<String, Refusal<MacroCause>>
    ensures { GivesBy string_bytes result (spec.checked_name name.items) }
{
    if !may_name(&name) {
        return Err(Refusal::Fault(MacroCause::BadFileName));
    }
    match String::from_utf8(name) {
        Ok(name) => Ok(name),
        Err(_) => Err(Refusal::Fault(MacroCause::BadFileName)),
    }
}

/// The name of a file that one string is.
pub fn file_name(alloc: Global, operands: &[Token]) -> Result<String, Refusal<MacroCause>>
    ensures { GivesBy string_bytes result (spec.file_name (map spelled operands.now)) }
{
    match operands {
        [token] if token.kind == TokenKind::String => {
            checked_name(string_value(alloc, between_quotes(token.bytes))?)
        }
        _ => Err(Refusal::Fault(MacroCause::BadMacroLine)),
    }
}
