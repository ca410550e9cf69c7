//! The operands of directives: what stands between commas, and the names and strings that operands are.

ghost use Rattle.std.specs.Prelude.{◌≡◌, ◌≤◌, length, map, IsTrue};
ghost use Rattle.asm_base.specs.Strings.{string_value};
ghost use Rattle.asm_base.specs.Tokens.{spelled};
ghost use Rattle.expr_texts.specs.Leaves.{between_quotes};
ghost use Rattle.asm_base.specs.Refusals.{GivesBy};
ghost use Rattle.std.specs.List.{list_any, position_or_len};
ghost use Rattle.asm_operands.specs.Operands.{is_name, is_dot, begins_with_place, names_symbol, is_mark, is_comma, checked_name, symbol_name, name_of, string_of, is_assignment, begins_with_dot, is_number, begins_with_label};

use crate::place_faults::{PlaceCause, PlaceFault};
use asm_base::{Token, TokenKind, string_value};
use asm_expr::Spelling;
use expr_texts::{all_digits, between_quotes, is_symbol_name};
use std::alloc::Global;

/// The operands of a directive, one after the other: what stands between its commas, or none where nothing stands.
#[derive(Clone, Copy)]
pub struct Operands<'t, 'a> {
    /// What is left, from behind a comma on.
    left: Option<&'t [Token<'a>]>,
}

impl<'t, 'a> Operands<'t, 'a> {
    ghost use Rattle.std.specs.Prelude.{◌≡◌, map};
    ghost use Rattle.asm_base.specs.Tokens.{spelled};
    ghost use Rattle.asm_operands.specs.Operands.{operands_of};
    ghost use Rattle.asm_operands.specs.OperandParts.{operands_left};

    /// The operands that these tokens are.
    pub fn new(tokens: &'t [Token<'a>]) -> Operands<'t, 'a>
        ensures { operands_left result ≡ operands_of (map spelled tokens.now) }
    {
        match tokens {
            [] => Operands { left: None },
            _ => Operands { left: Some(tokens) },
        }
    }
}

impl<'t, 'a> Iterator for Operands<'t, 'a> {
    ghost use Rattle.std.specs.Prelude.{map};
    ghost use Rattle.std.specs.Iterator.{YieldsFirstBy, item_count};
    ghost use Rattle.asm_base.specs.Tokens.{spelled};
    ghost use Rattle.asm_operands.specs.OperandParts.{operands_left};

    type Item = &'t [Token<'a>];

    ghost next_gives = { YieldsFirstBy (λ operand. map spelled operand.now) operands_left };

    ghost remaining = { item_count operands_left };

    fn next(&mut self) -> Option<&'t [Token<'a>]> {
        let tokens = self.left?;
        let end = operand_length(tokens);
        if end < tokens.len() {
            self.left = Some(&tokens[end + 1..]);
            Some(&tokens[..end])
        } else {
            self.left = None;
            Some(tokens)
        }
    }
}

/// How many tokens stand before the first comma, or all.
fn operand_length(tokens: &[Token]) -> usize
    ensures { result ≡ position_or_len is_comma (map spelled tokens.now) }
{
    for (at, token) in tokens.iter().enumerate() {
        if is_mark(token, b',') {
            return at;
        }
    }
    tokens.len()
}

/// Whether the token is a name.
pub fn is_name(token: &Token) -> bool
    ensures { result ≡ is_name (spelled token.now) }
{
    token.kind == TokenKind::Name
}

/// Whether the token may name a symbol: a name, or a string in place of one.
pub fn names_symbol(token: &Token) -> bool
    ensures { result ≡ names_symbol (spelled token.now) }
{
    matches!(token.kind, TokenKind::Name | TokenKind::String)
}

/// Whether the token is `.` without quotes, which names no symbol.
pub fn is_dot(token: &Token) -> bool
    ensures { result ≡ is_dot (spelled token.now) }
{
    is_name(token) && token.bytes == b".".as_slice()
}

/// Whether the first token is `.` without quotes.
pub fn begins_with_place(tokens: &[Token]) -> bool
    ensures { result ≡ begins_with_place (map spelled tokens.now) }
{
    match tokens.first() {
        Some(token) => is_dot(token),
        None => false,
    }
}

/// Whether one of the tokens is `.` without quotes.
pub fn has_dot(tokens: &[Token]) -> bool
    ensures { result ≡ list_any is_dot (map spelled tokens.now) }
{
    for token in tokens {
        if is_dot(token) {
            return true;
        }
    }
    false
}

/// Whether the token is this one mark of punctuation.
pub fn is_mark(token: &Token, mark: u8) -> bool
    ensures { result ≡ is_mark mark (spelled token.now) }
{
    token.bytes == [mark].as_slice()
}

/// The name, if a string table can hold it.
#[tactic(auto, unfolding(crate::specs::Operands::checked_name))]
pub fn checked_name(name: Vec<u8>) -> Result<Vec<u8>, PlaceFault>
    ensures { GivesBy (λ checked. checked.items) result (checked_name name.items) }
{
    if is_symbol_name(&name) {
        Ok(name)
    } else {
        Err(PlaceFault::Fault(PlaceCause::BadOperand))
    }
}

/// The name that a string gives a symbol.
#[inline(never)]
fn quoted_name(alloc: Global, string: &[u8]) -> Result<Spelling, PlaceFault>
    ensures { GivesBy (λ name. name) result
        (checked_name (string_value (between_quotes string.now))) }
{
    let name = checked_name(string_value(alloc, between_quotes(string))?)?;
    Ok(Spelling::new(alloc, &name)?)
}

/// The name that a token gives a symbol, quoted or not.
#[tactic(auto, unfolding(crate::specs::Operands::symbol_name))]
pub fn symbol_name(alloc: Global, token: &Token) -> Result<Spelling, PlaceFault>
    ensures { GivesBy (λ name. name) result (symbol_name (spelled token.now)) }
{
    match token.kind {
        TokenKind::Name => Ok(Spelling::new(alloc, token.bytes)?),
        TokenKind::String => quoted_name(alloc, token.bytes),
        _ => Err(PlaceFault::Fault(PlaceCause::BadOperand)),
    }
}

/// Whether an equals sign stands behind a name.
pub fn begins_assignment(rest: &[Token]) -> bool
    ensures { result ≡ is_assignment (map spelled rest.now) }
{
    match rest.first() {
        Some(token) => is_mark(token, b'='),
        None => false,
    }
}

/// Whether the name begins with a dot, as those of directives do.
pub fn begins_with_dot(name: &[u8]) -> bool
    ensures { result ≡ begins_with_dot name.now }
{
    match name {
        [first, ..] => *first == b'.',
        [] => false,
    }
}

/// Whether the token is decimal digits, which name a numeric label.
pub fn is_number(token: &Token) -> bool
    ensures { result ≡ is_number (spelled token.now) }
{
    token.kind == TokenKind::Digits && all_digits(10, token.bytes)
}

/// Whether a name, quoted or not, or a number, and a colon stand in front.
pub fn begins_with_label(tokens: &[Token]) -> bool
    ensures value { result ≡ begins_with_label (map spelled tokens.now) }
    ensures within { IsTrue result → 2 ≤ length tokens.now }
{
    match tokens {
        [first, second, ..] => (names_symbol(first) || is_number(first)) && is_mark(second, b':'),
        _ => false,
    }
}

/// The name that an operand gives a symbol, quoted or not.
#[tactic(auto, unfolding(crate::specs::Operands::name_of))]
pub(crate) fn name_of(alloc: Global, operand: &[Token]) -> Result<Spelling, PlaceFault>
    ensures { GivesBy (λ name. name) result (name_of (map spelled operand.now)) }
{
    match operand {
        [token] => symbol_name(alloc, token),
        _ => Err(PlaceFault::Fault(PlaceCause::BadOperand)),
    }
}

/// What the string that an operand is stands for.
#[tactic(auto, unfolding(crate::specs::Operands::string_of))]
pub fn string_of(alloc: Global, operand: &[Token]) -> Result<Vec<u8>, PlaceFault>
    ensures { GivesBy (λ bytes. bytes.items) result (string_of (map spelled operand.now)) }
{
    match operand {
        [token] if token.kind == TokenKind::String => {
            Ok(string_value(alloc, between_quotes(token.bytes))?)
        }
        _ => Err(PlaceFault::Fault(PlaceCause::BadOperand)),
    }
}
