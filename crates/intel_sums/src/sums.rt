//! Memory in brackets as a sum: its registers, and the text that is left of it without them.

ghost use Rattle.std.specs.Prelude.{◌≡◌, ◌+◌, ◌-◌, ◌^◌, ◌<◌, ◌≤◌, ◌==◌, ◌&&◌, ◌||◌, nat_lt, length, map, option_map, slice_get, drop, Ok, Some, IsSome, IsTrue};
ghost use Rattle.asm_base.specs.Refusals.{Gives, GivesBy};
ghost use Rattle.asm_base.specs.Tokens.{spelled};
ghost use Rattle.att_operands.specs.Marks.{mark_by};
ghost use Rattle.intel_sums.specs.Parts.{part_in};
ghost use Rattle.intel_sums.specs.Sums.{no_sum, plus_at, is_loose, is_register, depth_behind, kept, added, adds, with_token, stepped, sum_of, is_whole, sum_by};

use crate::other_registers::is_other_register;
use crate::parts::{FoundPart, Parts, part_in, with_part};
use asm_base::{Token, TokenKind};
use att_operands::{OperandCause, OperandFault, mark_at, register_named};
use smallvec::SmallVec;
use std::alloc::Global;

/// How far a sum was read.
#[derive(Drop)]
pub struct ReadSum<'a> {
    /// Whether its bracket has opened.
    pub opened: bool,
    /// How many parentheses are open.
    pub depth: usize,
    /// How many tokens still belong to a part that was found.
    pub passed: usize,
    pub parts: Parts,
    /// The text that is left without the parts. Eight tokens need no allocation.
    pub text: SmallVec<Token<'a>, 8>,
}

/// A sum of which nothing was read.
#[inline(always)]
fn no_sum<'a>(alloc: Global) -> ReadSum<'a>
    ensures { sum_by result ≡ no_sum }
{
    ReadSum {
        opened: false,
        depth: 0,
        passed: 0,
        parts: Parts::Nothing,
        text: SmallVec::new(alloc),
    }
}

/// The token at this place, if one stands there.
#[inline(always)]
pub fn token_at<'t, 'a>(text: &'t [Token<'a>], at: usize) -> Option<&'t Token<'a>>
    ensures value { let due = slice_get (map spelled text.now) at in
        option_map (λ token. spelled token.now) result ≡ due }
    ensures within { IsSome result → at < length text.now }
{
    text.get(at)
}

/// The mark that a token is, and 0 where it is none of one byte.
#[inline(always)]
#[tactic(auto, unfolding(att_operands::specs::Marks::mark_by))]
pub fn mark_of(token: &Token) -> u8
    ensures { result ≡ mark_by (Some (spelled token.now)) }
{
    if token.kind != TokenKind::Operator {
        return 0;
    }
    match token.bytes {
        [byte] => *byte,
        _ => 0,
    }
}

/// Whether the token is a comparison, `&&` or `||`.
#[inline(always)]
#[tactic(auto, unfolding(crate::specs::Sums::is_loose))]
pub fn is_loose(token: &Token) -> bool
    ensures { result ≡ is_loose (spelled token.now) }
{
    if token.kind != TokenKind::Operator {
        return false;
    }
    match token.bytes {
        [byte] => *byte == b'<' || *byte == b'>',
        [first, second] => !(*first == *second && (*first == b'<' || *first == b'>')),
        _ => false,
    }
}

/// Whether the token names a register, or one that is no operand here.
#[tactic(auto, unfolding(crate::specs::Sums::is_register))]
pub fn is_register(token: &Token) -> bool
    ensures { result ≡ is_register (spelled token.now) }
{
    match token.kind {
        TokenKind::Name => {
            register_named(token.bytes).is_some() || is_other_register(token.bytes)
        }
        _ => false,
    }
}

/// How many parentheses are open behind a mark, of which none closes more than there are.
#[inline(always)]
fn depth_behind(depth: usize, mark: u8) -> Option<usize>
    requires { depth + 1 < 2 ^ 64 }
    ensures { result ≡ depth_behind depth mark }
{
    if mark == b'(' {
        Some(depth + 1)
    } else if mark == b')' {
        if depth == 0 { None } else { Some(depth - 1) }
    } else {
        Some(depth)
    }
}

/// Whether the token does not stay in the text: it is a register, or binds less tightly than `+`
/// outside of parentheses.
#[inline(always)]
fn is_wrong(token: &Token, depth: usize) -> bool
    ensures { result ≡ is_register (spelled token.now)
        || ((depth == 0) && is_loose (spelled token.now)) }
{
    is_register(token) || (depth == 0 && is_loose(token))
}

/// The token stays in the text, if it may.
#[inline(always)]
#[tactic(auto, unfolding(crate::specs::Sums::kept))]
fn keep<'a>(sum: &mut ReadSum<'a>, token: &Token<'a>) -> Result<(), OperandFault>
    requires { sum.old.depth + 1 < 2 ^ 64 }
    ensures value { Gives (sum_by sum.new) result (kept (sum_by sum.old) (spelled token.now)) }
    ensures depth { sum.new.depth ≤ sum.old.depth + 1 }
{
    if is_wrong(token, sum.depth) {
        return Err(OperandFault::Fault(OperandCause::BadOperand));
    }
    match depth_behind(sum.depth, mark_of(token)) {
        Some(depth) => {
            sum.depth = depth;
            sum.text.push(*token)?;
            Ok(())
        }
        None => Err(OperandFault::Fault(OperandCause::BadOperand)),
    }
}

/// The `+` that stands for the bracket or the `+` at a token's place.
#[inline(always)]
fn plus_at<'a>(token: &Token<'a>) -> Token<'a>
    ensures { spelled result ≡ plus_at (spelled token.now) }
{
    Token {
        kind: TokenKind::Operator,
        bytes: b"+".as_slice(),
        start: token.start,
    }
}

/// A summand begins behind the token: a part of the address, or else the `+` stays in the text.
#[inline(always)]
fn add<'a>(
    sum: &mut ReadSum<'a>,
    token: &Token<'a>,
    behind: &[Token<'a>],
) -> Result<(), OperandFault>
    ensures value { Gives (sum_by sum.new) result
        (Ok (added (sum_by sum.old) (spelled token.now) (part_in (map spelled behind.now)))) }
    ensures depth { sum.new.depth ≡ sum.old.depth }
{
    sum.opened = true;
    match part_in(behind) {
        Some(FoundPart { part, length }) => {
            sum.passed = length;
            sum.parts = with_part(sum.parts, part);
            Ok(())
        }
        None => {
            sum.text.push(plus_at(token))?;
            Ok(())
        }
    }
}

/// Whether the mark begins a summand: it is the `[`, or a `+` behind it.
#[inline(always)]
fn adds(opened: bool, mark: u8) -> bool
    ensures { result ≡ adds opened mark }
{
    if opened { mark == b'+' } else { mark == b'[' }
}

/// A token more, in front of these others.
#[inline(always)]
#[tactic(auto, unfolding(crate::specs::Sums::with_token))]
fn take<'a>(
    sum: &mut ReadSum<'a>,
    token: &Token<'a>,
    behind: &[Token<'a>],
) -> Result<(), OperandFault>
    requires { sum.old.depth + 1 < 2 ^ 64 }
    ensures value { let due = with_token (sum_by sum.old) (spelled token.now) (map spelled behind.now) in
        Gives (sum_by sum.new) result due }
    ensures depth { sum.new.depth ≤ sum.old.depth + 1 }
{
    if sum.depth == 0 && adds(sum.opened, mark_of(token)) {
        add(sum, token, behind)
    } else {
        keep(sum, token)
    }
}

/// The same, where the token may belong to a part that was found.
#[inline(always)]
fn step<'a>(
    sum: &mut ReadSum<'a>,
    token: &Token<'a>,
    behind: &[Token<'a>],
) -> Result<(), OperandFault>
    requires { sum.old.depth + 1 < 2 ^ 64 }
    ensures value { let due = stepped (sum_by sum.old) (spelled token.now) (map spelled behind.now) in
        Gives (sum_by sum.new) result due }
    ensures depth { sum.new.depth ≤ sum.old.depth + 1 }
{
    if sum.passed > 0 {
        sum.passed -= 1;
        Ok(())
    } else {
        take(sum, token, behind)
    }
}

/// The sum that the tokens are.
#[inline(always)]
pub fn read_sum<'a>(alloc: Global, text: &[Token<'a>]) -> Result<ReadSum<'a>, OperandFault>
    ensures { GivesBy sum_by result (sum_of (Ok no_sum) (map spelled text.now)) }
{
    let mut sum = no_sum(alloc);
    for (index, token) in text.iter().enumerate() {
        match step(&mut sum, token, &text[index + 1..]) {
            Ok(()) => {}
            Err(refusal) => return Err(refusal),
        }
    }
    Ok(sum)
}

/// Whether the sum is whole: its bracket has opened, and no parenthesis is open.
pub fn is_whole(sum: &ReadSum) -> bool
    ensures { result ≡ is_whole (sum_by sum.now) }
{
    sum.opened && sum.depth == 0
}
