//! The operands of an instruction: registers, immediates, memory and branch targets.

ghost use Rattle.std.specs.Prelude.{◌≡◌, ◌+◌, ◌<◌, ◌≤◌, nat_lt, length, map, drop, take, Some, None, Ok, IfOk};
ghost use Rattle.std.specs.List.{prefix_len};
ghost use Rattle.asm_base.specs.Tokens.{spelled};
ghost use Rattle.x86_insn.specs.declared.insns.Base.TheVariants as base;
ghost use Rattle.x86_insn.specs.declared.insns.Index.TheVariants as index;
ghost use Rattle.att_operands.specs.Values.{GivesSo, ValueText, IsValueOf};
ghost use Rattle.att_operands.specs.OperandTexts.{OperandText, memory, IsOperandOf};
ghost use Rattle.att_operands.specs.Spells.{in_segment};
ghost use Rattle.intel_operands.specs.Symbols.{is_symbol, has_symbol, names_place};
ghost use Rattle.intel_operands.specs.OperandTexts.{unsized, bare_operand, bare_of, held_of, other_of, outline_of, outlined, operand_of, is_no_comma, up_to_comma, operand_at, IsSized, IsPartRead};

use crate::outlines::{is_memory, lone_register, memory_of, refused, says_size, sized_by};
use crate::symbols::{has_symbol, is_symbol, names_place};
use crate::values::{has_register, value_of};
use crate::words::{bits_in, offset_words};
use asm_base::Token;
use att_operands::{OperandFault, ReadOperand};
use intel_sums::mark_of;
use std::alloc::Global;
use x86_insn::{Address, Base, Index, Value};

/// An operand as it is written.
#[derive(Drop)]
pub struct SizedOperand<'a> {
    pub operand: ReadOperand<'a>,
    /// How many bits of memory it says, or 0.
    pub bits: u8,
}

/// An operand, and the index of the first token behind it.
#[derive(Drop)]
pub struct FoundOperand<'a> {
    pub operand: ReadOperand<'a>,
    /// How many bits of memory it says, or 0.
    pub bits: u8,
    pub next: usize,
}

/// The immediate behind words that say that it is an address.
#[inline(never)]
fn held_operand<'a>(
    alloc: Global,
    text: &[Token<'a>],
    is_branch: bool,
) -> Result<SizedOperand<'a>, OperandFault>
    ensures { GivesSo IsSized result (outlined is_branch (held_of (map spelled text.now))) }
{
    if has_register(text) {
        return refused();
    }
    match value_of(alloc, text) {
        Ok(value) => Ok(SizedOperand {
            operand: ReadOperand::Immediate(value),
            bits: 0,
        }),
        Err(refusal) => Err(refusal),
    }
}

/// An operand that says no size.
#[inline(always)]
fn unsized_by<'a>(operand: ReadOperand<'a>) -> SizedOperand<'a>
    ensures { (text : OperandText) → IsOperandOf operand.entry text
        → IsSized result (unsized text) }
{
    SizedOperand { operand, bits: 0 }
}

/// Memory that is a value alone.
#[inline(always)]
fn bare_memory<'a>(value: Value<'a>) -> ReadOperand<'a>
    ensures { (text : ValueText) → IsValueOf value.entry text
        → IsOperandOf result (memory (in_segment None base.Absent index.Absent) text) }
{
    let address = Address {
        segment: None,
        base: Base::Absent,
        index: Index::Absent,
    };
    ReadOperand::Memory(address, value)
}

/// The operand of a value that stands alone.
#[inline(always)]
fn bare_by<'a>(
    value: Value<'a>,
    is_branch: bool,
    text: &[Token<'a>],
) -> Result<SizedOperand<'a>, OperandFault>
    ensures { let own = map spelled text.now in (due : ValueText) → IsValueOf value.entry due
        → GivesSo IsSized result (bare_operand is_branch (names_place own) (has_symbol own) due) }
{
    if is_branch {
        return Ok(unsized_by(ReadOperand::Target(value)));
    }
    if names_place(text) {
        return Ok(unsized_by(bare_memory(value)));
    }
    if has_symbol(text) {
        return refused();
    }
    Ok(unsized_by(ReadOperand::Immediate(value)))
}

/// The operand of a value of one token.
#[inline(always)]
pub(crate) fn word_by<'a>(value: Value<'a>, is_branch: bool, token: &Token<'a>) -> SizedOperand<'a>
    ensures { let symbol = is_symbol (spelled token.now) in (due : ValueText)
        → IsValueOf value.entry due
        → GivesSo IsSized (Ok result) (bare_operand is_branch symbol symbol due) }
{
    if is_branch {
        return unsized_by(ReadOperand::Target(value));
    }
    if is_symbol(token) {
        return unsized_by(bare_memory(value));
    }
    unsized_by(ReadOperand::Immediate(value))
}

/// A value without a mark.
#[inline(always)]
fn bare_operand<'a>(
    alloc: Global,
    text: &[Token<'a>],
    is_branch: bool,
) -> Result<SizedOperand<'a>, OperandFault>
    ensures { GivesSo IsSized result (outlined is_branch (bare_of (map spelled text.now))) }
{
    if has_register(text) {
        return refused();
    }
    match value_of(alloc, text) {
        Ok(value) => bare_by(value, is_branch, text),
        Err(refusal) => Err(refusal),
    }
}

/// An operand that is no register.
#[inline(always)]
fn other_operand<'a>(
    alloc: Global,
    text: &[Token<'a>],
    is_branch: bool,
) -> Result<SizedOperand<'a>, OperandFault>
    ensures { GivesSo IsSized result (outlined is_branch (other_of (map spelled text.now))) }
{
    let words = offset_words(text);
    if words > 0 {
        return held_operand(alloc, &text[words..], is_branch);
    }
    let bits = bits_in(text);
    if says_size(text, bits) {
        return sized_by(alloc, text, bits);
    }
    if is_memory(text, bits) {
        memory_of(alloc, text)
    } else {
        bare_operand(alloc, text, is_branch)
    }
}

/// The operand that the text is, of a branch or of another instruction.
#[inline(always)]
#[tactic(auto, unfolding(crate::specs::OperandTexts::operand_of, crate::specs::OperandTexts::outline_of))]
fn operand_of<'a>(
    alloc: Global,
    text: &[Token<'a>],
    is_branch: bool,
) -> Result<SizedOperand<'a>, OperandFault>
    ensures { GivesSo IsSized result (operand_of is_branch (map spelled text.now)) }
{
    if text.is_empty() {
        return refused();
    }
    match lone_register(text) {
        Some(reg) => Ok(SizedOperand {
            operand: ReadOperand::Register(reg),
            bits: 0,
        }),
        None => other_operand(alloc, text, is_branch),
    }
}

/// Whether the token is no comma.
#[tactic(auto, unfolding(crate::specs::OperandTexts::is_no_comma))]
fn is_no_comma(token: &Token) -> bool
    ensures { result ≡ is_no_comma (spelled token.now) }
{
    mark_of(token) != b','
}

/// How many of the tokens stand in front that are no comma.
fn without_comma(tokens: &[Token]) -> usize
    ensures value { result ≡ prefix_len (λ token. is_no_comma (spelled token)) tokens.now }
    ensures within { result ≤ length tokens.now }
{
    tokens.iter().take_while(|token| is_no_comma(token)).count()
}

/// How many tokens stand before the first comma.
fn up_to_comma(tokens: &[Token]) -> usize
    ensures value { result ≡ up_to_comma (map spelled tokens.now) }
    ensures within { result ≤ length tokens.now }
{
    without_comma(tokens)
}

/// The tokens from this place on, up to a comma or the end.
#[tactic(auto, using(crate::proofs::SpelledTests::text_spelled))]
fn text_at<'t, 'a>(tokens: &'t [Token<'a>], at: usize) -> &'t [Token<'a>]
    requires { at ≤ length tokens.now }
    ensures value { let behind = drop at (map spelled tokens.now) in
        map spelled result.now ≡ take (up_to_comma behind) behind }
    ensures size { length result.now ≡ up_to_comma (drop at (map spelled tokens.now)) }
    ensures within { at + length result.now ≤ length tokens.now }
{
    let behind = &tokens[at..];
    &behind[..up_to_comma(behind)]
}

/// The operand at this place, behind which a comma or nothing stands.
#[inline(always)]
#[tactic(auto, unfolding(crate::specs::OperandTexts::operand_at))]
pub fn read_operand<'a>(
    alloc: Global,
    tokens: &[Token<'a>],
    at: usize,
    is_branch: bool,
) -> Result<FoundOperand<'a>, OperandFault>
    requires { at ≤ length tokens.now }
    ensures value { GivesSo IsPartRead result (operand_at is_branch (map spelled tokens.now) at) }
    ensures within { IfOk result (λ found. found.next ≤ length tokens.now) }
{
    let text = text_at(tokens, at);
    let next = at + text.len();
    match operand_of(alloc, text, is_branch) {
        Ok(SizedOperand { operand, bits }) => Ok(FoundOperand {
            operand,
            bits,
            next,
        }),
        Err(refusal) => Err(refusal),
    }
}
