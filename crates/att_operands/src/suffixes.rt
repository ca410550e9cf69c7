//! The suffix of a value, as `@PLT`: behind the name that begins the value, or that is added to its
//! first number.

ghost use Rattle.std.specs.Prelude.{◌≡◌, ◌+◌, ◌^◌, ◌<◌, ◌≤◌, map, length, slice_get, option_map, Some, IsSome, IfSome};
ghost use Rattle.asm_base.specs.Tokens.{spelled};
ghost use Rattle.expr_texts.specs.Leaves.{is_numeric_label};
ghost use Rattle.att_operands.specs.Marks.{mark_at};
ghost use Rattle.att_operands.specs.Values.{suffix_of, suffix_by, suffix_behind, suffix_at, names_by, numbers_by, adds_at, before_name, suffixed_name};

use crate::marks::{mark_at, token_at};
use asm_base::{Token, TokenKind};
use expr_texts::all_digits;
use x86_insn::Suffix;

/// The suffix that a word is.
#[inline(never)]
fn suffix_of(word: &[u8]) -> Option<Suffix>
    ensures { result ≡ suffix_of word.now }
{
    if word.eq_ignore_ascii_case(b"plt".as_slice()) {
        Some(Suffix::Plt)
    } else if word.eq_ignore_ascii_case(b"gotpcrel".as_slice()) {
        Some(Suffix::GotPcRel)
    } else if word.eq_ignore_ascii_case(b"gottpoff".as_slice()) {
        Some(Suffix::GotTpOff)
    } else if word.eq_ignore_ascii_case(b"tpoff".as_slice()) {
        Some(Suffix::TpOff)
    } else {
        None
    }
}

/// The suffix that the token at this place is.
#[inline(always)]
#[tactic(auto, unfolding(crate::specs::Values::suffix_by))]
fn suffix_by(tokens: &[Token], at: usize) -> Option<Suffix>
    ensures value { result ≡ suffix_by (slice_get (map spelled tokens.now) at) }
    ensures within { IsSome result → at < length tokens.now }
{
    match token_at(tokens, at) {
        Some(token) => suffix_of(token.bytes),
        None => None,
    }
}

/// Whether the digits are a numeric label: decimal, with a `b` or an `f` behind them.
#[inline(never)]
pub fn is_numeric_label(digits: &[u8]) -> bool
    ensures { result ≡ is_numeric_label digits.now }
{
    if digits.is_empty() {
        return false;
    }
    let end = digits.len() - 1;
    (digits[end] == b'b' || digits[end] == b'f') && all_digits(10, &digits[..end])
}

/// Whether the token at this place is a name.
#[inline(always)]
#[tactic(auto, unfolding(crate::specs::Values::names_by))]
fn names_at(tokens: &[Token], at: usize) -> bool
    ensures { result ≡ names_by (slice_get (map spelled tokens.now) at) }
{
    match token_at(tokens, at) {
        Some(token) => match token.kind {
            TokenKind::Name => token.bytes != b".".as_slice(),
            TokenKind::String => true,
            TokenKind::Digits => is_numeric_label(token.bytes),
            _ => false,
        },
        None => false,
    }
}

/// The suffix behind the name at this place, where `@` stands behind it.
#[inline(always)]
fn marked_suffix(tokens: &[Token], name: usize) -> Option<Suffix>
    requires within { name + 1 < length tokens.now }
    requires marked { mark_at (map spelled tokens.now) (name + 1) ≡ 64 }
    ensures value { result ≡ suffix_behind (map spelled tokens.now) name }
    ensures within { IsSome result → name + 2 < length tokens.now }
{
    if names_at(tokens, name) {
        suffix_by(tokens, name + 2)
    } else {
        None
    }
}

/// The suffix behind the name at this place.
fn suffix_behind(tokens: &[Token], name: usize) -> Option<Suffix>
    requires { name < length tokens.now }
    ensures value { result ≡ suffix_behind (map spelled tokens.now) name }
    ensures within { IsSome result → name + 2 < length tokens.now }
{
    if mark_at(tokens, name + 1) == b'@' {
        marked_suffix(tokens, name)
    } else {
        None
    }
}

/// Whether the token at this place is a number.
#[inline(always)]
#[tactic(auto, unfolding(crate::specs::Values::numbers_by))]
fn numbers_at(tokens: &[Token], at: usize) -> bool
    ensures { result ≡ numbers_by (slice_get (map spelled tokens.now) at) }
{
    match token_at(tokens, at) {
        Some(token) => match token.kind {
            TokenKind::Digits => !is_numeric_label(token.bytes),
            _ => false,
        },
        None => false,
    }
}

/// Whether a number and a `+` stand at this place.
#[inline(always)]
fn adds_at(tokens: &[Token], at: usize) -> bool
    requires { at < length tokens.now }
    ensures { result ≡ adds_at (map spelled tokens.now) at }
{
    if mark_at(tokens, at + 1) == b'+' {
        numbers_at(tokens, at)
    } else {
        false
    }
}

/// So many tokens stand before the name that the suffix of the value at this place belongs to.
#[tactic(auto, unfolding(crate::specs::Values::before_name))]
fn before_name(tokens: &[Token], at: usize) -> usize
    requires { at + 1 < length tokens.now }
    ensures value { result ≡ before_name (map spelled tokens.now) at }
    ensures most { result ≤ 3 }
{
    if adds_at(tokens, at) {
        2
    } else if mark_at(tokens, at) == b'-' {
        if adds_at(tokens, at + 1) { 3 } else { 0 }
    } else {
        0
    }
}

/// A suffix, and the place of the name that it stands behind.
pub(crate) struct NamedSuffix {
    pub suffix: Suffix,
    pub name: usize,
}

/// The suffix of the value at this place, where some tokens may stand before its name.
#[inline(never)]
fn late_suffix(tokens: &[Token], at: usize) -> Option<NamedSuffix>
    requires { at + 4 < length tokens.now }
    ensures value { option_map (λ found. found.suffix) result ≡ suffix_at (map spelled tokens.now) at }
    ensures name { IfSome result (λ found. found.name ≡ suffixed_name (map spelled tokens.now) at) }
    ensures within { IfSome result (λ found. found.name + 2 < length tokens.now) }
{
    let name = at + before_name(tokens, at);
    match suffix_behind(tokens, name) {
        Some(suffix) => Some(NamedSuffix { suffix, name }),
        None => None,
    }
}

/// The place of the `@` of a suffix behind a name that some tokens stand before, by the mark behind
/// the first of them.
#[inline(always)]
fn late_mark(mark: u8, at: usize) -> usize
    requires { at + 4 < 2 ^ 64 }
    ensures added { mark ≡ 43 → result ≡ at + 3 }
    ensures negative { (mark ≡ 43 → ⊥) → result ≡ at + 4 }
    ensures most { result ≤ at + 4 }
{
    if mark == b'+' { at + 3 } else { at + 4 }
}

/// The suffix of the value at this place. Few values have one that is not behind their first token,
/// so the place of its mark is looked at before the tokens.
#[inline(always)]
pub(crate) fn suffix_at(tokens: &[Token], at: usize) -> Option<NamedSuffix>
    requires { at < length tokens.now }
    ensures value { option_map (λ found. found.suffix) result ≡ suffix_at (map spelled tokens.now) at }
    ensures name { IfSome result (λ found. found.name ≡ suffixed_name (map spelled tokens.now) at) }
    ensures within { IfSome result (λ found. found.name + 2 < length tokens.now) }
{
    let mark = mark_at(tokens, at + 1);
    if mark == b'@' {
        return match marked_suffix(tokens, at) {
            Some(suffix) => Some(NamedSuffix { suffix, name: at }),
            None => None,
        };
    }
    if tokens.len() - at < 5 {
        return None;
    }
    if mark_at(tokens, late_mark(mark, at)) != b'@' {
        return None;
    }
    late_suffix(tokens, at)
}
