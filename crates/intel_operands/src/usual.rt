//! The usual operands, read without what others need. Where one of these finds none, it says
//! nothing.

ghost use Rattle.std.specs.Prelude.{◌≡◌, ◌+◌, ◌<◌, ◌≤◌, Bool, map, length, take, drop, slice_get, Ok, Some, IsTrue, IsSome, IfSome};
ghost use Rattle.asm_base.specs.Tokens.{spelled};
ghost use Rattle.att_operands.specs.OperandTexts.{register};
ghost use Rattle.att_operands.specs.Marks.{mark_at, ends_at};
ghost use Rattle.att_operands.specs.Addresses.{register_by};
ghost use Rattle.att_operands.specs.Values.{GivesSo, IsValueOf};
ghost use Rattle.intel_operands.specs.Usual.{NamesRegister, NamesNone, IsLoneWord, IsWordAt, OpensBehind, ClosesAt, HoldsAddress, ShowsMemory, said_words, SaysPlainly};
ghost use Rattle.intel_operands.specs.OperandTexts.{unsized, part, value_of, operand_at, IsPartRead};

use crate::operands::{FoundOperand, SizedOperand, word_by};
use crate::outlines::summed_at;
use crate::values::value_of;
use crate::words::{bits_in, is_offset};
use asm_base::{Token, TokenKind};
use att_operands::{
    NamedRegister, base_by, mark_at, register_by, register_named, registers_have_slots, scale_by,
};
use intel_sums::{
    Part, Parts, address_of, calm_tokens_stay, is_calm_at, is_other_register, mark_of,
    sums_are_read, token_at,
};
use std::alloc::Global;
use x86_insn::{Address, Base, Index, Reg, Value};

/// An address, and the index of the first token behind its `]`.
#[derive(Clone, Copy)]
pub(crate) struct FoundAddress {
    pub address: Address,
    pub next: usize,
}

/// The register that the token names.
#[inline(always)]
#[tactic(auto, unfolding(crate::specs::OperandTexts::is_no_comma, att_operands::specs::Marks::mark_by))]
fn register_in(token: &Token) -> Option<Reg>
    ensures { IfSome result (λ reg. NamesRegister (spelled token.now) reg) }
{
    if token.kind != TokenKind::Name {
        return None;
    }
    match register_named(token.bytes) {
        Some(NamedRegister::Plain(reg)) => Some(reg),
        _ => None,
    }
}

/// Whether a comma stands at this place, or nothing.
#[inline(always)]
#[tactic(auto, unfolding(att_operands::specs::Marks::ends_by))]
pub fn ends_at(tokens: &[Token], at: usize) -> bool
    ensures { result ≡ ends_at (map spelled tokens.now) at }
{
    match token_at(tokens, at) {
        Some(token) => mark_of(token) == b',',
        None => true,
    }
}

/// The register that is the whole operand at this place: what stands behind it is seen sooner.
#[inline(always)]
#[tactic(auto, using(crate::proofs::UsualOperands::register_is))]
pub fn whole_register(tokens: &[Token], at: usize) -> Option<Reg>
    ensures value { IfSome result (λ reg. (branch : Bool)
        → operand_at branch (map spelled tokens.now) at
        ≡ Ok (part (at + 1) (unsized (register reg)))) }
    ensures within { IsSome result → at + 1 ≤ length tokens.now }
{
    match token_at(tokens, at) {
        Some(token) => if ends_at(tokens, at + 1) {
            register_in(token)
        } else {
            None
        },
        None => None,
    }
}

/// Whether no name of a register is as short or as long as the text.
#[inline(always)]
fn is_odd_size(text: &[u8]) -> bool
    ensures { IsTrue result → NamesNone text.now }
{
    registers_have_slots();
    text.len() < 2 || text.len() > 5
}

/// Whether the text names no register, nor one that is no operand here.
#[inline(always)]
fn names_none(text: &[u8]) -> bool
    ensures { IsTrue result → NamesNone text.now }
{
    if is_odd_size(text) {
        return true;
    }
    match register_named(text) {
        Some(_) => false,
        None => !is_other_register(text),
    }
}

/// Whether the token is a number or a name, and no register.
#[inline(always)]
#[tactic(auto, unfolding(crate::specs::OperandTexts::is_no_comma, intel_sums::specs::Sums::is_register, att_operands::specs::Marks::mark_by))]
fn is_lone_word(token: &Token) -> bool
    ensures { IsTrue result → IsLoneWord (spelled token.now) }
{
    match token.kind {
        TokenKind::Name => names_none(token.bytes),
        TokenKind::Digits => names_none(token.bytes),
        _ => false,
    }
}

/// The token at this place alone.
#[inline(always)]
#[tactic(auto, using(crate::proofs::SpelledTests::one_spelled))]
fn one_at<'t, 'a>(tokens: &'t [Token<'a>], at: usize) -> &'t [Token<'a>]
    requires { at < length tokens.now }
    ensures { map spelled result.now ≡ take 1 (drop at (map spelled tokens.now)) }
{
    let behind = &tokens[at..];
    &behind[..1]
}

/// The value of the token at this place alone.
#[inline(always)]
fn word_value<'a>(alloc: Global, tokens: &[Token<'a>], at: usize) -> Option<Value<'a>>
    requires { at < length tokens.now }
    ensures { IfSome result (λ value.
        GivesSo IsValueOf (Ok value) (value_of (take 1 (drop at (map spelled tokens.now))))) }
{
    match value_of(alloc, one_at(tokens, at)) {
        Ok(value) => Some(value),
        Err(_) => None,
    }
}

/// The number or the name, which is no register and not `OFFSET`, that is the whole operand at this
/// place.
#[inline(always)]
fn word_at<'t, 'a>(tokens: &'t [Token<'a>], at: usize) -> Option<&'t Token<'a>>
    ensures value { IfSome result (λ token.
        IsWordAt (map spelled tokens.now) at (spelled token.now)) }
    ensures within { IsSome result → at < length tokens.now }
{
    match token_at(tokens, at) {
        Some(token) => {
            if !is_lone_word(token) {
                return None;
            }
            if is_offset(tokens, at) {
                return None;
            }
            if ends_at(tokens, at + 1) {
                Some(token)
            } else {
                None
            }
        }
        None => None,
    }
}

/// The value of one token that is the whole operand at this place.
#[inline(always)]
pub fn whole_value<'a>(
    alloc: Global,
    tokens: &[Token<'a>],
    at: usize,
    is_branch: bool,
) -> Option<FoundOperand<'a>>
    ensures value { IfSome result (λ found.
        GivesSo IsPartRead (Ok found) (operand_at is_branch (map spelled tokens.now) at)) }
    ensures within { IfSome result (λ found. found.next ≤ length tokens.now) }
{
    match word_at(tokens, at) {
        Some(token) => match word_value(alloc, tokens, at) {
            Some(value) => {
                let word = word_by(value, is_branch, token);
                Some(FoundOperand {
                    operand: word.operand,
                    bits: word.bits,
                    next: at + 1,
                })
            }
            None => None,
        },
        None => None,
    }
}

/// How many tokens stand before the bracket, if they stay in the text of a sum: two at most.
#[inline(always)]
#[tactic(auto, using(crate::proofs::UsualSums::behind_none, crate::proofs::UsualSums::behind_one, crate::proofs::UsualSums::behind_two))]
fn before_bracket(text: &[Token]) -> Option<usize>
    ensures { IfSome result (λ before. OpensBehind (map spelled text.now) before) }
{
    if mark_at(text, 0) == b'[' {
        return Some(0);
    }
    if !is_calm_at(text, 0) {
        return None;
    }
    if mark_at(text, 1) == b'[' {
        return Some(1);
    }
    if !is_calm_at(text, 1) {
        return None;
    }
    if mark_at(text, 2) == b'[' {
        Some(2)
    } else {
        None
    }
}

/// The base that stands alone in the brackets that open at this place, behind which an operand ends.
#[inline(always)]
fn base_at(text: &[Token], at: usize) -> Option<Base>
    requires { at < 3 }
    ensures value { IfSome result (λ base. ClosesAt (map spelled text.now) at base) }
    ensures within { IsSome result → at + 3 ≤ length text.now }
{
    if mark_at(text, at + 2) != b']' {
        return None;
    }
    if mark_at(text, at + 1) != 0 {
        return None;
    }
    if !ends_at(text, at + 3) {
        return None;
    }
    base_by(register_by(text, at + 1))
}

/// The address of two registers in the brackets that open at this place, behind which an operand
/// ends.
#[inline(always)]
#[tactic(auto, using(crate::proofs::UsualSums::pair_holds))]
fn pair_at(
    text: &[Token],
    at: usize,
    first: NamedRegister,
    second: NamedRegister,
) -> Option<FoundAddress>
    requires place { at < 3 }
    requires word { mark_at (map spelled text.now) (at + 1) ≡ 0 }
    requires names { register_by (slice_get (map spelled text.now) (at + 1)) ≡ Some first }
    requires plus { mark_at (map spelled text.now) (at + 2) ≡ 43 }
    requires other { mark_at (map spelled text.now) (at + 3) ≡ 0 }
    requires renames { register_by (slice_get (map spelled text.now) (at + 3)) ≡ Some second }
    ensures value { IfSome result (λ found. HoldsAddress (map spelled text.now) at found) }
    ensures order { IfSome result (λ found. at < found.next) }
    ensures within { IfSome result (λ found. found.next ≤ length text.now) }
{
    if mark_at(text, at + 4) != b']' {
        return None;
    }
    if !ends_at(text, at + 5) {
        return None;
    }
    match address_of(None, Parts::Two(Part::Plain(first), Part::Plain(second))) {
        Some(address) => Some(FoundAddress {
            address,
            next: at + 5,
        }),
        None => None,
    }
}

/// The same with a scale of the second register.
#[inline(always)]
#[tactic(auto, using(crate::proofs::UsualSums::scaled_holds))]
fn scaled_at(
    text: &[Token],
    at: usize,
    first: NamedRegister,
    second: NamedRegister,
) -> Option<FoundAddress>
    requires place { at < 3 }
    requires word { mark_at (map spelled text.now) (at + 1) ≡ 0 }
    requires names { register_by (slice_get (map spelled text.now) (at + 1)) ≡ Some first }
    requires plus { mark_at (map spelled text.now) (at + 2) ≡ 43 }
    requires other { mark_at (map spelled text.now) (at + 3) ≡ 0 }
    requires renames { register_by (slice_get (map spelled text.now) (at + 3)) ≡ Some second }
    ensures value { IfSome result (λ found. HoldsAddress (map spelled text.now) at found) }
    ensures order { IfSome result (λ found. at < found.next) }
    ensures within { IfSome result (λ found. found.next ≤ length text.now) }
{
    if mark_at(text, at + 4) != b'*' {
        return None;
    }
    if mark_at(text, at + 5) != 0 {
        return None;
    }
    if mark_at(text, at + 6) != b']' {
        return None;
    }
    if !ends_at(text, at + 7) {
        return None;
    }
    match scale_by(text, at + 5) {
        Some(scale) => match address_of(
            None,
            Parts::Two(Part::Plain(first), Part::Scaled(second, scale)),
        ) {
            Some(address) => Some(FoundAddress {
                address,
                next: at + 7,
            }),
            None => None,
        },
        None => None,
    }
}

/// The address of two registers, with a scale or without one.
#[inline(never)]
fn two_at(text: &[Token], at: usize) -> Option<FoundAddress>
    requires { at < 3 }
    ensures value { IfSome result (λ found. HoldsAddress (map spelled text.now) at found) }
    ensures order { IfSome result (λ found. at < found.next) }
    ensures within { IfSome result (λ found. found.next ≤ length text.now) }
{
    if mark_at(text, at + 1) != 0 {
        return None;
    }
    if mark_at(text, at + 2) != b'+' {
        return None;
    }
    if mark_at(text, at + 3) != 0 {
        return None;
    }
    match register_by(text, at + 1) {
        Some(first) => match register_by(text, at + 3) {
            Some(second) => match pair_at(text, at, first, second) {
                Some(found) => Some(found),
                None => scaled_at(text, at, first, second),
            },
            None => None,
        },
        None => None,
    }
}

/// The address of one register or two in the brackets that open at this place, behind which an
/// operand ends.
#[inline(always)]
#[tactic(auto, using(crate::proofs::UsualSums::base_holds))]
fn address_at(text: &[Token], at: usize) -> Option<FoundAddress>
    requires { at < 3 }
    ensures value { IfSome result (λ found. HoldsAddress (map spelled text.now) at found) }
    ensures order { IfSome result (λ found. at < found.next) }
    ensures within { IfSome result (λ found. found.next ≤ length text.now) }
{
    match base_at(text, at) {
        Some(base) => Some(FoundAddress {
            address: Address {
                segment: None,
                base,
                index: Index::Absent,
            },
            next: at + 3,
        }),
        None => two_at(text, at),
    }
}

/// Memory of so many bits in front of the text.
#[inline(always)]
fn front_memory<'a>(alloc: Global, text: &[Token<'a>], bits: u8) -> Option<FoundOperand<'a>>
    ensures value { IfSome result (λ found. ShowsMemory (map spelled text.now) bits found) }
    ensures within { IfSome result (λ found. found.next ≤ length text.now) }
{
    if mark_at(text, 1) == b':' {
        return None;
    }
    let before = before_bracket(text)?;
    let found = address_at(text, before)?;
    match summed_at(alloc, &text[..before], 0, bits, found.address) {
        Ok(SizedOperand { operand, bits }) => Some(FoundOperand {
            operand,
            bits,
            next: found.next,
        }),
        Err(_) => None,
    }
}

/// The tokens from this place on.
#[inline(always)]
fn from_place<'t, 'a>(tokens: &'t [Token<'a>], at: usize) -> &'t [Token<'a>]
    requires { at ≤ length tokens.now }
    ensures value { result.now ≡ drop at tokens.now }
    ensures size { at + length result.now ≡ length tokens.now }
{
    &tokens[at..]
}

/// How many words say the size of memory of so many bits.
#[inline(always)]
fn said_words(bits: u8) -> usize
    ensures { result ≡ said_words bits }
{
    if bits > 0 { 2 } else { 0 }
}

/// Whether the two words in front, if they say a size, are no marks.
#[inline(always)]
fn says_plainly(text: &[Token], bits: u8) -> bool
    ensures { IsTrue result → SaysPlainly bits (map spelled text.now) }
{
    bits == 0 || (mark_at(text, 0) == 0 && mark_at(text, 1) == 0)
}

/// The memory at one register or two that is the whole operand in front of the tokens.
#[inline(always)]
fn whole_in_front<'a>(alloc: Global, tokens: &[Token<'a>]) -> Option<FoundOperand<'a>>
    ensures value { IfSome result (λ found. (branch : Bool)
        → GivesSo IsPartRead (Ok found) (operand_at branch (map spelled tokens.now) 0)) }
    ensures within { IfSome result (λ found. found.next ≤ length tokens.now) }
{
    sums_are_read();
    calm_tokens_stay();
    if is_offset(tokens, 0) {
        return None;
    }
    let bits = bits_in(tokens);
    if !says_plainly(tokens, bits) {
        return None;
    }
    let said = said_words(bits);
    let text = from_place(tokens, said);
    match front_memory(alloc, text, bits) {
        Some(
            FoundOperand {
                operand,
                bits,
                next,
            },
        ) => Some(FoundOperand {
            operand,
            bits,
            next: said + next,
        }),
        None => None,
    }
}

/// The memory at one register or two that is the whole operand at this place.
#[inline(always)]
pub fn whole_memory<'a>(alloc: Global, tokens: &[Token<'a>], at: usize) -> Option<FoundOperand<'a>>
    requires { at ≤ length tokens.now }
    ensures value { IfSome result (λ found. (branch : Bool)
        → GivesSo IsPartRead (Ok found) (operand_at branch (map spelled tokens.now) at)) }
    ensures within { IfSome result (λ found. found.next ≤ length tokens.now) }
{
    let behind = from_place(tokens, at);
    match whole_in_front(alloc, behind) {
        Some(
            FoundOperand {
                operand,
                bits,
                next,
            },
        ) => Some(FoundOperand {
            operand,
            bits,
            next: at + next,
        }),
        None => None,
    }
}
