//! Usual memory in brackets: one register in them, with one or two tokens before or behind it. Where
//! these find none, they say nothing.

ghost use Rattle.std.specs.Prelude.{◌≡◌, map, length, slice_get, IfSome};
ghost use Rattle.asm_base.specs.Tokens.{spelled};
ghost use Rattle.intel_sums.specs.LoneSums.{is_calm, is_calm_by, IsFoundIn};

use crate::sums::{is_register, mark_of, token_at};
use asm_base::{Token, TokenKind};
use att_operands::{NamedRegister, mark_at, register_by};

/// The register of a sum, and where the text begins and ends that is left without it.
#[derive(Clone, Copy)]
pub struct LoneSum {
    pub named: NamedRegister,
    pub from: usize,
    pub to: usize,
}

/// Whether the token is a number, a name that is no register, or `-`.
#[tactic(auto, unfolding(crate::specs::LoneSums::is_calm, crate::specs::Sums::is_register, att_operands::specs::Marks::mark_by))]
fn is_calm(token: &Token) -> bool
    ensures { result ≡ is_calm (spelled token.now) }
{
    match token.kind {
        TokenKind::Name => !is_register(token),
        TokenKind::Digits => true,
        TokenKind::Operator => mark_of(token) == b'-',
        _ => false,
    }
}

/// Whether such a token stands at this place.
#[inline(always)]
pub fn is_calm_at(text: &[Token], at: usize) -> bool
    ensures { result ≡ is_calm_by (slice_get (map spelled text.now) at) }
{
    match token_at(text, at) {
        Some(token) => is_calm(token),
        None => false,
    }
}

/// `[register]`
#[inline(always)]
#[tactic(auto, using(crate::proofs::LoneSums::alone_is))]
fn alone(text: &[Token]) -> Option<LoneSum>
    requires { length text.now ≡ 3 }
    ensures { IfSome result (λ found. IsFoundIn text.now found) }
{
    if mark_at(text, 0) != b'[' {
        return None;
    }
    match register_by(text, 1) {
        Some(named) => Some(LoneSum {
            named,
            from: 0,
            to: 0,
        }),
        None => None,
    }
}

/// `x[register]`
#[inline(always)]
#[tactic(auto, using(crate::proofs::LoneSums::one_before_is))]
fn one_before(text: &[Token]) -> Option<LoneSum>
    requires { length text.now ≡ 4 }
    ensures { IfSome result (λ found. IsFoundIn text.now found) }
{
    if mark_at(text, 1) != b'[' {
        return None;
    }
    if !is_calm_at(text, 0) {
        return None;
    }
    match register_by(text, 2) {
        Some(named) => Some(LoneSum {
            named,
            from: 0,
            to: 1,
        }),
        None => None,
    }
}

/// `-8[register]`
#[inline(always)]
#[tactic(auto, using(crate::proofs::LoneSums::two_before_is))]
fn two_before(text: &[Token]) -> Option<LoneSum>
    requires { length text.now ≡ 5 }
    ensures { IfSome result (λ found. IsFoundIn text.now found) }
{
    if mark_at(text, 2) != b'[' {
        return None;
    }
    if !is_calm_at(text, 0) || !is_calm_at(text, 1) {
        return None;
    }
    match register_by(text, 3) {
        Some(named) => Some(LoneSum {
            named,
            from: 0,
            to: 2,
        }),
        None => None,
    }
}

/// `[register-8]`
#[inline(always)]
#[tactic(auto, using(crate::proofs::LoneSums::two_behind_is))]
fn two_behind(text: &[Token]) -> Option<LoneSum>
    requires { length text.now ≡ 5 }
    ensures { IfSome result (λ found. IsFoundIn text.now found) }
{
    if mark_at(text, 0) != b'[' {
        return None;
    }
    if mark_at(text, 2) != b'-' {
        return None;
    }
    if !is_calm_at(text, 2) || !is_calm_at(text, 3) {
        return None;
    }
    match register_by(text, 1) {
        Some(named) => Some(LoneSum {
            named,
            from: 2,
            to: 4,
        }),
        None => None,
    }
}

/// The register of a sum of three to five tokens, its `]` with them.
#[inline(always)]
pub fn lone_sum(text: &[Token]) -> Option<LoneSum>
    ensures { IfSome result (λ found. IsFoundIn text.now found) }
{
    let size = text.len();
    if size == 3 {
        alone(text)
    } else if size == 4 {
        one_before(text)
    } else if size == 5 {
        match two_before(text) {
            Some(found) => Some(found),
            None => two_behind(text),
        }
    } else {
        None
    }
}
