//! The address of a memory operand, between its parentheses.

ghost use Rattle.std.specs.Prelude.{◌≡◌, ◌+◌, ◌<◌, ◌≤◌, map, length, slice_get, Some, IsSome, IfSome};
ghost use Rattle.asm_base.specs.Tokens.{spelled};
ghost use Rattle.att_operands.specs.Addresses.{register_by, register_at, base_by, index_by, takes_index, scale_of, scale_by, closed_at, scaled_by, indexed_by, index_at, based_by, lone_by, unbased_at, address_at};

use crate::marks::{mark_at, token_at};
use crate::registers::{NamedRegister, register_named};
use asm_base::{Token, TokenKind};
use expr_texts::spelled_number;
use x86_insn::{Base, Class, Index, Reg};

/// The base and the index of an address, and the index of the first token behind it.
#[derive(Clone, Copy)]
pub struct ReadAddress {
    pub base: Base,
    pub index: Index,
    pub next: usize,
}

/// What the token at this place names as a register.
#[inline(always)]
pub fn register_by(tokens: &[Token], at: usize) -> Option<NamedRegister>
    ensures value { result ≡ register_by (slice_get (map spelled tokens.now) at) }
    ensures within { IsSome result → at < length tokens.now }
{
    match token_at(tokens, at) {
        Some(token) => register_named(token.bytes),
        None => None,
    }
}

/// The register behind a `%` at this place.
#[inline(always)]
fn register_at(tokens: &[Token], at: usize) -> Option<NamedRegister>
    ensures value { result ≡ register_at (map spelled tokens.now) at }
    ensures within { IsSome result → at + 1 < length tokens.now }
{
    if mark_at(tokens, at) == b'%' {
        register_by(tokens, at + 1)
    } else {
        None
    }
}

/// The base that was named.
#[inline(always)]
pub fn base_by(named: Option<NamedRegister>) -> Option<Base>
    ensures value { result ≡ base_by named }
    ensures named { IsSome result → IsSome named }
{
    match named {
        Some(
            NamedRegister::Plain(
                Reg {
                    class: Class::Quad,
                    number,
                },
            ),
        ) => Some(Base::Of(number)),
        Some(NamedRegister::Rip) => Some(Base::Rip),
        _ => None,
    }
}

/// The register that was named as an index.
#[inline(always)]
pub fn index_by(named: Option<NamedRegister>) -> Option<u8>
    ensures value { result ≡ index_by named }
    ensures named { IsSome result → IsSome named }
{
    match named {
        Some(
            NamedRegister::Plain(
                Reg {
                    class: Class::Quad,
                    number,
                },
            ),
        ) => if number == 4 { None } else { Some(number) },
        _ => None,
    }
}

/// The binary logarithm of a scale.
#[inline(always)]
fn scale_of(number: u64) -> Option<u8>
    ensures { result ≡ scale_of number }
{
    if number == 1 {
        Some(0)
    } else if number == 2 {
        Some(1)
    } else if number == 4 {
        Some(2)
    } else if number == 8 {
        Some(3)
    } else {
        None
    }
}

/// The scale that the token at this place writes, by its logarithm.
#[inline(always)]
#[tactic(auto, unfolding(crate::specs::Addresses::scale_by))]
pub fn scale_by(tokens: &[Token], at: usize) -> Option<u8>
    ensures value { result ≡ scale_by (slice_get (map spelled tokens.now) at) }
    ensures within { IsSome result → at < length tokens.now }
{
    match token_at(tokens, at) {
        Some(token) => {
            if token.kind != TokenKind::Digits {
                return None;
            }
            match spelled_number(token.bytes) {
                Ok(number) => scale_of(number),
                Err(_) => None,
            }
        }
        None => None,
    }
}

/// The address, if it closes at this place.
#[inline(always)]
fn closed_at(tokens: &[Token], base: Base, index: Index, at: usize) -> Option<ReadAddress>
    ensures value { result ≡ closed_at (map spelled tokens.now) base index at }
    ensures within { IfSome result (λ found. (at < found.next) × (found.next ≤ length tokens.now)) }
{
    if mark_at(tokens, at) == b')' {
        Some(ReadAddress {
            base,
            index,
            next: at + 1,
        })
    } else {
        None
    }
}

/// The address of a base and an index behind which this place is, and a scale if it is written.
#[inline(always)]
fn indexed_at(tokens: &[Token], base: Base, number: u8, at: usize) -> Option<ReadAddress>
    ensures value { result ≡ indexed_by (map spelled tokens.now) base (Some number) at }
    ensures within { IfSome result (λ found. (at < found.next) × (found.next ≤ length tokens.now)) }
{
    if mark_at(tokens, at) == b',' {
        match scale_by(tokens, at + 1) {
            Some(scale) => closed_at(tokens, base, Index::By(number, scale), at + 2),
            None => None,
        }
    } else {
        closed_at(tokens, base, Index::By(number, 0), at)
    }
}

/// The address of a base, with the index at this place.
#[tactic(auto, unfolding(crate::specs::Addresses::index_at))]
fn index_at(tokens: &[Token], base: Base, at: usize) -> Option<ReadAddress>
    ensures value { result ≡ index_at (map spelled tokens.now) base at }
    ensures within { IfSome result (λ found. (at < found.next) × (found.next ≤ length tokens.now)) }
{
    match index_by(register_at(tokens, at)) {
        Some(number) => indexed_at(tokens, base, number, at + 2),
        None => None,
    }
}

/// Whether an index may stand with the base.
#[inline(always)]
pub fn takes_index(base: Base) -> bool
    ensures { result ≡ takes_index base }
{
    !matches!(base, Base::Rip)
}

/// The address of a base behind which this place is, and of an index if it is written.
#[inline(always)]
fn based_at(tokens: &[Token], base: Base, at: usize) -> Option<ReadAddress>
    ensures value { result ≡ based_by (map spelled tokens.now) (Some base) at }
    ensures within { IfSome result (λ found. (at < found.next) × (found.next ≤ length tokens.now)) }
{
    if mark_at(tokens, at) == b',' {
        if takes_index(base) {
            index_at(tokens, base, at + 1)
        } else {
            None
        }
    } else {
        closed_at(tokens, base, Index::Absent, at)
    }
}

/// The address of no base and no index, with the scale 1 at this place.
#[inline(never)]
fn lone_at(tokens: &[Token], at: usize) -> Option<ReadAddress>
    ensures value { let scale = scale_by (slice_get (map spelled tokens.now) at) in
        result ≡ lone_by (map spelled tokens.now) scale (at + 1) }
    ensures within { IfSome result (λ found. (at < found.next) × (found.next ≤ length tokens.now)) }
{
    match scale_by(tokens, at) {
        Some(0) => closed_at(tokens, Base::Absent, Index::Absent, at + 1),
        _ => None,
    }
}

/// The address without a base, behind its comma.
#[inline(always)]
fn unbased_at(tokens: &[Token], at: usize) -> Option<ReadAddress>
    ensures value { result ≡ unbased_at (map spelled tokens.now) at }
    ensures within { IfSome result (λ found. (at < found.next) × (found.next ≤ length tokens.now)) }
{
    if mark_at(tokens, at) == b'%' {
        index_at(tokens, Base::Absent, at)
    } else {
        lone_at(tokens, at)
    }
}

/// The address behind the `(` before this place.
#[inline(always)]
#[tactic(auto, unfolding(crate::specs::Addresses::address_at))]
pub(crate) fn address_at(tokens: &[Token], at: usize) -> Option<ReadAddress>
    ensures value { result ≡ address_at (map spelled tokens.now) at }
    ensures within { IfSome result (λ found. (at < found.next) × (found.next ≤ length tokens.now)) }
{
    if mark_at(tokens, at) == b',' {
        return unbased_at(tokens, at + 1);
    }
    match base_by(register_at(tokens, at)) {
        Some(base) => based_at(tokens, base, at + 2),
        None => None,
    }
}
