//! The numbers and names that one token spells.

ghost use Rattle.std.specs.Prelude.{◌≡◌, Ok};
ghost use Rattle.asm_base.specs.Tokens.{spelled};
ghost use Rattle.asm_base.specs.Refusals.{GivesBy};
ghost use Rattle.asm_expr.specs.Trees.{tree_of};
ghost use Rattle.expr_texts.specs.Leaves.{character_code, between_quotes, is_symbol_name, is_numeric_label, label_written, digits_leaf, word_leaf, quoted_leaf, leaf_of};

use crate::numbers::{all_digits, numeral, spelled_number};
use asm_base::{Token, TokenKind, string_value};
use asm_expr::{Expr, ExprCause, ExprFault, Spelling, Written};
use std::alloc::Global;

/// The code of the byte behind the quote of a character.
#[tactic(auto, unfolding(crate::specs::Leaves::character_code))]
pub fn character_code(character: &[u8]) -> Result<u64, ExprCause>
    ensures { result ≡ character_code character.now }
{
    match character {
        [_, byte, ..] => Ok(u64::from(*byte)),
        _ => Err(ExprCause::BadExpression),
    }
}

/// What stands between the quotes of a string.
pub fn between_quotes(string: &[u8]) -> &[u8]
    ensures { result.now ≡ between_quotes string.now }
{
    if string.len() < 2 {
        // No string that closes.
        return &[];
    }
    &string[1..string.len() - 1]
}

/// Whether a string table can hold the name: it has some bytes, and none of them is 0.
pub fn is_symbol_name(name: &[u8]) -> bool
    ensures { result ≡ is_symbol_name name.now }
{
    !name.is_empty() && !name.contains(&0)
}

/// Whether the digits are decimal and a `b` or an `f` stands behind them.
fn is_numeric_label(digits: &[u8]) -> bool
    ensures { result ≡ is_numeric_label digits.now }
{
    if digits.is_empty() {
        return false;
    }
    let end = digits.len() - 1;
    (digits[end] == b'b' || digits[end] == b'f') && all_digits(10, &digits[..end])
}

/// The numeric label in this direction.
fn label_written(direction: u8, number: u64) -> Written
    ensures { result ≡ label_written direction number }
{
    if direction == b'b' {
        Written::Back(number)
    } else {
        Written::Next(number)
    }
}

/// What a token of digits spells.
#[tactic(auto, unfolding(crate::specs::Leaves::digits_leaf))]
fn digits_leaf(digits: &[u8]) -> Result<Expr, ExprFault>
    ensures { GivesBy tree_of result (digits_leaf digits.now) }
{
    if is_numeric_label(digits) {
        let end = digits.len() - 1;
        let number = numeral(10, &digits[..end]).map_err(ExprFault::Fault)?;
        Ok(Expr::Name(label_written(digits[end], number)))
    } else {
        let number = spelled_number(digits).map_err(ExprFault::Fault)?;
        Ok(Expr::Num(number))
    }
}

/// What a word spells.
fn word_leaf(alloc: Global, bytes: &[u8]) -> Result<Expr, ExprFault>
    ensures { GivesBy tree_of result (Ok (word_leaf bytes.now)) }
{
    if bytes == b".".as_slice() {
        Ok(Expr::Here)
    } else {
        Ok(Expr::Name(Written::Plain(Spelling::new(alloc, bytes)?)))
    }
}

/// What a string with this value spells.
fn quoted_leaf(alloc: Global, value: &[u8]) -> Result<Expr, ExprFault>
    ensures { GivesBy tree_of result (quoted_leaf value.now) }
{
    if is_symbol_name(value) {
        Ok(Expr::Name(Written::Plain(Spelling::new(alloc, value)?)))
    } else {
        Err(ExprFault::Fault(ExprCause::BadExpression))
    }
}

/// The number or the name that a token spells.
#[tactic(auto, unfolding(crate::specs::Leaves::leaf_of))]
pub(crate) fn leaf_of(alloc: Global, token: &Token) -> Result<Expr, ExprFault>
    ensures { GivesBy tree_of result (leaf_of (spelled token.now)) }
{
    match token.kind {
        TokenKind::Name => word_leaf(alloc, token.bytes),
        TokenKind::Digits => digits_leaf(token.bytes),
        TokenKind::Character => {
            let code = character_code(token.bytes).map_err(ExprFault::Fault)?;
            Ok(Expr::Num(code))
        }
        TokenKind::String => {
            quoted_leaf(alloc, &string_value(alloc, between_quotes(token.bytes))?)
        }
        _ => Err(ExprFault::Fault(ExprCause::BadExpression)),
    }
}
