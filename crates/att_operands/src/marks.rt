//! Marks of punctuation, by their places among the tokens of a statement.

ghost use Rattle.std.specs.Prelude.{◌≡◌, ◌<◌, map, length, option_map, slice_get, Some, IsSome, IsTrue};
ghost use Rattle.asm_base.specs.Tokens.{spelled};
ghost use Rattle.att_operands.specs.Marks.{mark_by, mark_at, ends_by, ends_at, begins_by};

use asm_base::{Token, TokenKind};

/// The token at this place, if one stands there.
#[inline(always)]
pub(crate) fn token_at<'t, 'a>(tokens: &'t [Token<'a>], at: usize) -> Option<&'t Token<'a>>
    ensures value { let due = slice_get (map spelled tokens.now) at in
        option_map (λ token. spelled token.now) result ≡ due }
    ensures within { IsSome result → at < length tokens.now }
{
    tokens.get(at)
}

/// The mark that a token is, and 0 where it is none of one byte.
#[inline(always)]
#[tactic(auto, unfolding(crate::specs::Marks::mark_by))]
fn mark_of(token: &Token) -> u8
    ensures { result ≡ mark_by (Some (spelled token.now)) }
{
    if token.kind != TokenKind::Operator {
        return 0;
    }
    match token.bytes {
        [byte] => *byte,
        _ => 0,
    }
}

/// The mark at this place, and 0 where there is none.
#[inline(always)]
#[tactic(auto, unfolding(crate::specs::Marks::mark_by))]
pub fn mark_at(tokens: &[Token], at: usize) -> u8
    ensures value { result ≡ mark_at (map spelled tokens.now) at }
    ensures within { 0 < result → at < length tokens.now }
{
    match token_at(tokens, at) {
        Some(token) => mark_of(token),
        None => 0,
    }
}

/// Whether an operand ends at this place: at a comma, or behind the last token.
#[inline(always)]
#[tactic(auto, unfolding(crate::specs::Marks::ends_by))]
pub(crate) fn ends_at(tokens: &[Token], at: usize) -> bool
    ensures { result ≡ ends_at (map spelled tokens.now) at }
{
    match token_at(tokens, at) {
        Some(token) => mark_of(token) == b',',
        None => true,
    }
}

/// Whether something stands at this place that is no `%`, no `$`, no comma and no `*`.
#[inline(always)]
#[tactic(auto, unfolding(crate::specs::Marks::begins_by))]
pub(crate) fn begins_value(tokens: &[Token], at: usize) -> bool
    ensures value { result ≡ begins_by (slice_get (map spelled tokens.now) at) }
    ensures within { IsTrue result → at < length tokens.now }
{
    match token_at(tokens, at) {
        Some(token) => {
            let mark = mark_of(token);
            !(mark == b'%' || mark == b'$' || mark == b',' || mark == b'*')
        }
        None => false,
    }
}
