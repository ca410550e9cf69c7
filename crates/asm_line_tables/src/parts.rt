//! How the tokens behind `.loc`, and behind `.file` with a number, are cut (GNU as manual, ".loc", ".file").

ghost use Rattle.std.specs.Prelude.{◌≡◌, ◌≤◌, ◌&&◌, length, map};
ghost use Rattle.asm_base.specs.Tokens.{spelled};
ghost use Rattle.asm_line_tables.specs.Parts as spec;

use crate::words::{LocMark, LocOption, LocValue};
use asm_base::{Token, TokenKind};
use asm_operands::{is_mark, is_name};

/// Whether the token is a name, a number, a character or a string.
#[inline(always)]
fn is_value_kind(token: &Token) -> bool
    ensures { result ≡ spec.is_value_kind token.now.kind }
{
    !matches!(token.kind, TokenKind::Operator | TokenKind::Other)
}

/// Whether a value may begin with the token.
#[inline(always)]
fn begins_value(token: &Token) -> bool
    ensures { result ≡ spec.begins_value (spelled token.now) }
{
    is_value_kind(token) || is_mark(token, b'(') || is_mark(token, b'~')
}

/// Whether a value may end with the token.
#[inline(always)]
fn ends_value(token: &Token) -> bool
    ensures { result ≡ spec.ends_value (spelled token.now) }
{
    is_value_kind(token) || is_mark(token, b')')
}

/// Whether another expression begins between the two tokens.
#[inline(always)]
fn is_between(before: &Token, token: &Token) -> bool
    ensures { result ≡ (spec.ends_value (spelled before.now)
        && spec.begins_value (spelled token.now)) }
{
    ends_value(before) && begins_value(token)
}

/// How many of the tokens go on with the expression that the token before them is in.
#[inline(always)]
fn going_on<'t, 'a>(first: &'t Token<'a>, rest: &'t [Token<'a>]) -> usize
    ensures value { result ≡ spec.going_on (spelled first.now) (map spelled rest.now) }
    ensures within { result ≤ length rest.now }
{
    let mut before = first;
    for (index, token) in rest.iter().enumerate() {
        if is_between(before, token) {
            return index;
        }
        before = token;
    }
    rest.len()
}

/// How many tokens the expression at the front has.
#[inline(always)]
fn front_length(tokens: &[Token]) -> usize
    ensures value { result ≡ spec.front_length (map spelled tokens.now) }
    ensures within { result ≤ length tokens.now }
{
    match tokens.split_first() {
        Some((first, rest)) => 1 + going_on(first, rest),
        None => 0,
    }
}

/// The expression at the front of tokens, and what stands behind it.
#[derive(Clone, Copy)]
pub(crate) struct TwoParts<'t, 'a> {
    pub(crate) front: &'t [Token<'a>],
    pub(crate) behind: &'t [Token<'a>],
}

/// Cuts tokens behind the expression at their front.
#[inline(always)]
pub(crate) fn cut<'t, 'a>(tokens: &'t [Token<'a>]) -> TwoParts<'t, 'a>
    ensures front { map spelled result.front.now ≡ spec.front (map spelled tokens.now) }
    ensures behind { map spelled result.behind.now ≡ spec.behind_front (map spelled tokens.now) }
    ensures within { length result.behind.now ≤ length tokens.now }
{
    let length = front_length(tokens);
    TwoParts {
        front: &tokens[..length],
        behind: &tokens[length..],
    }
}

/// The option of `.loc` that has this name.
#[tactic(auto, unfolding(crate::specs::Parts::option_named))]
fn option_named(name: &[u8]) -> Option<LocOption>
    ensures { result ≡ spec.option_named name.now }
{
    if name == b"is_stmt".as_slice() {
        Some(LocOption::Value(LocValue::IsStmt))
    } else if name == b"discriminator".as_slice() {
        Some(LocOption::Value(LocValue::Discriminator))
    } else if name == b"isa".as_slice() {
        Some(LocOption::Value(LocValue::Isa))
    } else if name == b"basic_block".as_slice() {
        Some(LocOption::Mark(LocMark::BasicBlock))
    } else if name == b"prologue_end".as_slice() {
        Some(LocOption::Mark(LocMark::PrologueEnd))
    } else if name == b"epilogue_begin".as_slice() {
        Some(LocOption::Mark(LocMark::EpilogueBegin))
    } else {
        None
    }
}

/// The option that the token names.
pub(crate) fn option_of(token: &Token) -> Option<LocOption>
    ensures { result ≡ spec.option_of (spelled token.now) }
{
    if is_name(token) {
        option_named(token.bytes)
    } else {
        None
    }
}
