//! The text of tokens (GNU as manual, section 3.1, "Preprocessing").

ghost use Rattle.std.specs.Prelude.{◌≡◌, ◌++◌, map, OnOk};
ghost use Rattle.asm_base.specs.Tokens.{spelled};
ghost use Rattle.macro_texts.specs.TokenTexts.{follows, space_between, lone_text, text_of, value_text, value_seen};

use asm_base::{Token, TokenKind};
use expr_texts::between_quotes;
use std::alloc::AllocError;

/// What stands for a parameter.
#[derive(Clone, Copy)]
pub enum Value<'t, 'a> {
    /// These bytes.
    Bytes(&'t [u8]),
    /// The text of these tokens.
    Tokens(&'t [Token<'a>]),
}

/// Whether the token stands right behind the one before it.
pub(crate) fn follows(before: &Token, token: &Token) -> bool
    ensures { result ≡ follows (spelled before.now) (spelled token.now) }
{
    token.start >= before.start && token.start - before.start == before.bytes.len()
}

/// One space, unless the token stands right behind the one before it.
fn space_between(before: &Token, token: &Token) -> &'static [u8]
    ensures { result.now ≡ space_between (spelled before.now) (spelled token.now) }
{
    if follows(before, token) { b"" } else { b" " }
}

/// Appends a token that stands behind this one.
fn push_behind(text: &mut Vec<u8>, before: &Token, token: &Token) -> Result<(), AllocError>
    ensures { OnOk result (text.new.items ≡ text.old.items
        ++ (space_between (spelled before.now) (spelled token.now) ++ token.now.bytes.now)) }
{
    text.extend_from_slice(space_between(before, token))?;
    text.extend_from_slice(token.bytes)
}

/// Appends the text of tokens: one space stands where blanks and comments stood.
pub fn push_text(text: &mut Vec<u8>, tokens: &[Token]) -> Result<(), AllocError>
    ensures { OnOk result (text.new.items ≡ text.old.items ++ text_of (map spelled tokens.now)) }
{
    let Some(first) = tokens.first() else {
        return Ok(());
    };
    text.extend_from_slice(first.bytes)?;
    for at in 1..tokens.len() {
        push_behind(text, &tokens[at - 1], &tokens[at])?;
    }
    Ok(())
}

/// What one token stands for: a string for what is between its quotes.
pub(crate) fn lone_text<'a>(token: &Token<'a>) -> &'a [u8]
    ensures { result.now ≡ lone_text (spelled token.now) }
{
    if token.kind == TokenKind::String {
        between_quotes(token.bytes)
    } else {
        token.bytes
    }
}

/// What an argument, a default or a value stands for: its text, or what is between the quotes where it is one string.
#[tactic(auto, unfolding(crate::specs::TokenTexts::value_text))]
pub fn value_of<'t, 'a>(tokens: &'t [Token<'a>]) -> Value<'t, 'a>
    ensures { value_seen result ≡ value_text (map spelled tokens.entry.now) }
{
    match tokens {
        [token] if token.kind == TokenKind::String => Value::Bytes(between_quotes(token.bytes)),
        _ => Value::Tokens(tokens),
    }
}

/// Appends what stands for a parameter.
pub fn push_value(text: &mut Vec<u8>, value: Value) -> Result<(), AllocError>
    ensures { OnOk result (text.new.items ≡ text.old.items ++ value_seen value.entry) }
{
    match value {
        Value::Bytes(bytes) => text.extend_from_slice(bytes),
        Value::Tokens(tokens) => push_text(text, tokens),
    }
}
