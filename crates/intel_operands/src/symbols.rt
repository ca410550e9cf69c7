//! Symbols in the texts of values, and sums of one symbol and numbers.

ghost use Rattle.std.specs.Prelude.{◌≡◌, ◌+◌, ◌<◌, ◌≤◌, map, length, drop};
ghost use Rattle.std.specs.List.{list_any, list_all, prefix_len};
ghost use Rattle.asm_base.specs.Tokens.{spelled};
ghost use Rattle.intel_operands.specs.Symbols.{is_symbol, has_symbol, is_numeric, numbers_in_front, are_numbers, unsuffixed, adds_numbers, is_added, adds_to_symbol, names_place};

use asm_base::{Token, TokenKind};
use att_operands::{is_numeric_label, mark_at};
use intel_sums::{is_loose, mark_of, token_at};

/// Whether the token is a symbol, a numeric label or the place.
#[tactic(auto, unfolding(crate::specs::Symbols::is_symbol))]
pub(crate) fn is_symbol(token: &Token) -> bool
    ensures { result ≡ is_symbol (spelled token.now) }
{
    match token.kind {
        TokenKind::Name => true,
        TokenKind::String => true,
        TokenKind::Digits => is_numeric_label(token.bytes),
        _ => false,
    }
}

/// Whether one of the tokens is a symbol.
fn any_symbol(text: &[Token]) -> bool
    ensures { result ≡ list_any (λ token. is_symbol (spelled token)) text.now }
{
    text.iter().any(|token| is_symbol(token))
}

/// Whether one of the tokens of a text is a symbol.
pub(crate) fn has_symbol(text: &[Token]) -> bool
    ensures { result ≡ has_symbol (map spelled text.now) }
{
    any_symbol(text)
}

/// Whether the token is no symbol, no parenthesis, and binds no less tightly than `+`.
#[tactic(auto, unfolding(crate::specs::Symbols::is_numeric))]
fn is_numeric(token: &Token) -> bool
    ensures { result ≡ is_numeric (spelled token.now) }
{
    let mark = mark_of(token);
    !(is_symbol(token) || (is_loose(token) || (mark == b'(' || mark == b')')))
}

/// How many such tokens stand in front.
fn front_numbers(text: &[Token]) -> usize
    ensures value { result ≡ prefix_len (λ token. is_numeric (spelled token)) text.now }
    ensures within { result ≤ length text.now }
{
    text.iter().take_while(|token| is_numeric(token)).count()
}

/// How many such tokens stand in front of a text.
fn numbers_in_front(text: &[Token]) -> usize
    ensures value { result ≡ numbers_in_front (map spelled text.now) }
    ensures within { result ≤ length text.now }
{
    front_numbers(text)
}

/// Whether all tokens are such.
fn all_numeric(text: &[Token]) -> bool
    ensures { result ≡ list_all (λ token. is_numeric (spelled token)) text.now }
{
    text.iter().all(|token| is_numeric(token))
}

/// Whether all tokens of a text are such.
fn are_numbers(text: &[Token]) -> bool
    ensures { result ≡ are_numbers (map spelled text.now) }
{
    all_numeric(text)
}

/// What stands behind a symbol, without its suffix.
fn unsuffixed<'t, 'a>(text: &'t [Token<'a>]) -> &'t [Token<'a>]
    ensures { map spelled result.now ≡ unsuffixed (map spelled text.now) }
{
    if text.len() > 1 && mark_at(text, 0) == b'@' {
        &text[2..]
    } else {
        text
    }
}

/// Whether nothing stands there, or `+` or `-` and numbers.
fn adds_numbers(text: &[Token]) -> bool
    ensures { result ≡ adds_numbers (map spelled text.now) }
{
    match text {
        [] => true,
        [sign, rest @ ..] => {
            let mark = mark_of(sign);
            (mark == b'+' || mark == b'-') && are_numbers(rest)
        }
    }
}

/// Whether nothing stands before this place, or a `+`.
fn is_added(text: &[Token], at: usize) -> bool
    ensures { result ≡ is_added (map spelled text.now) at }
{
    at == 0 || mark_at(text, at - 1) == b'+'
}

/// Whether nothing stands behind the symbol at this place and its suffix, or `+` or `-` and numbers.
fn adds_behind(text: &[Token], at: usize) -> bool
    requires { at < length text.now }
    ensures { result ≡ adds_numbers (unsuffixed (drop (at + 1) (map spelled text.now))) }
{
    adds_numbers(unsuffixed(&text[at + 1..]))
}

/// Whether the text is the symbol at this place, to which numbers may be added.
fn adds_to_symbol(text: &[Token], at: usize) -> bool
    ensures { result ≡ adds_to_symbol (map spelled text.now) at }
{
    match token_at(text, at) {
        Some(token) => is_symbol(token) && (is_added(text, at) && adds_behind(text, at)),
        None => false,
    }
}

/// Whether the text is a symbol, to which numbers may be added.
#[tactic(auto, unfolding(crate::specs::Symbols::names_place))]
pub(crate) fn names_place(text: &[Token]) -> bool
    ensures { result ≡ names_place (map spelled text.now) }
{
    adds_to_symbol(text, numbers_in_front(text))
}
