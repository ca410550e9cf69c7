//! What stands round the value of an operand: a register, words, or memory.

ghost use Rattle.std.specs.Prelude.{◌≡◌, ◌+◌, ◌-◌, ◌<◌, ◌≤◌, Bool, true, false, map, length, take, drop, Ok, Err, Some, None, IsSome, IsTrue, nat_lt, is_some, ◌&&◌, ◌||◌, ◌==◌};
ghost use Rattle.std.specs.List.{list_any};
ghost use Rattle.asm_base.specs.declared.refusals.Refusal.TheVariants.{Fault};
ghost use Rattle.asm_base.specs.Tokens.{spelled};
ghost use Rattle.att_operands.specs.declared.faults.OperandCause.TheVariants.{BadOperand};
ghost use Rattle.att_operands.specs.Values.{GivesSo, ValueText, IsValueOf};
ghost use Rattle.att_operands.specs.OperandTexts.{no_displacement};
ghost use Rattle.intel_sums.specs.Parts.{address_of};
ghost use Rattle.intel_sums.specs.Sums.{no_sum, sum_of, sum_by, but_last};
ghost use Rattle.intel_operands.specs.Words.{bits_in};
ghost use Rattle.att_operands.specs.Marks.{mark_by, mark_at};
ghost use Rattle.intel_operands.specs.OperandTexts.{lone_register, segment_of, has_bracket, closes_bracket, is_nested, is_memory, displacement_in, summed_at, summed_by, summed, bracketed, is_placed, placed, segmented, sized, memory_of, value_of, as_memory, outlined, IsSized};

use crate::operands::SizedOperand;
use crate::symbols::names_place;
use crate::values::{has_register, value_of};
use crate::words::bits_in;
use asm_base::Token;
use att_operands::{
    NamedRegister, OperandCause, OperandFault, ReadOperand, mark_at, no_displacement, register_by,
};
use intel_sums::{Part, Parts, ReadSum, address_of, is_whole, lone_sum, mark_of, read_sum};
use std::alloc::Global;
use x86_insn::{Address, Base, Index, Reg, Segment, Value};

/// An operand has no spelling.
pub(crate) fn refused<'a>() -> Result<SizedOperand<'a>, OperandFault>
    ensures { result ≡ Err (Fault BadOperand) }
{
    Err(OperandFault::Fault(OperandCause::BadOperand))
}

/// The register that the text is.
#[inline(always)]
#[tactic(auto, unfolding(crate::specs::OperandTexts::lone_register))]
pub(crate) fn lone_register(text: &[Token]) -> Option<Reg>
    ensures { result ≡ lone_register (map spelled text.now) }
{
    if text.len() != 1 {
        return None;
    }
    match register_by(text, 0) {
        Some(NamedRegister::Plain(reg)) => Some(reg),
        _ => None,
    }
}

/// The segment in front, behind which a `:` stands.
#[inline(always)]
#[tactic(auto, unfolding(crate::specs::OperandTexts::segment_of))]
fn segment_of(text: &[Token]) -> Option<Segment>
    ensures value { result ≡ segment_of (map spelled text.now) }
    ensures within { IsSome result → 2 ≤ length text.now }
{
    if mark_at(text, 1) != b':' {
        return None;
    }
    match register_by(text, 0) {
        Some(NamedRegister::Segment(segment)) => Some(segment),
        _ => None,
    }
}

/// Whether one of the tokens is a `[`.
fn any_bracket(text: &[Token]) -> bool
    ensures { result ≡ list_any (λ token. mark_by (Some (spelled token)) == 91) text.now }
{
    text.iter().any(|token| mark_of(token) == b'[')
}

/// Whether a `[` stands in the text.
fn has_bracket(text: &[Token]) -> bool
    ensures { result ≡ has_bracket (map spelled text.now) }
{
    any_bracket(text)
}

/// Whether the text closes by `]`.
#[tactic(auto, unfolding(crate::specs::OperandTexts::closes_bracket, att_operands::specs::Marks::mark_by))]
fn closes_bracket(text: &[Token]) -> bool
    ensures value { result ≡ closes_bracket (map spelled text.now) }
    ensures some { IsTrue result → 0 < length text.now }
{
    if text.is_empty() {
        return false;
    }
    mark_at(text, text.len() - 1) == b']'
}

/// The text without its last token.
#[tactic(auto, using(crate::proofs::SpelledTests::but_last_spelled))]
fn but_last<'t, 'a>(text: &'t [Token<'a>]) -> &'t [Token<'a>]
    requires { 0 < length text.now }
    ensures value { map spelled result.now ≡ but_last (map spelled text.now) }
    ensures size { length result.now + 1 ≡ length text.now }
{
    &text[..text.len() - 1]
}

/// Whether the text is memory in the brackets of an indirect branch.
fn is_nested(text: &[Token]) -> bool
    ensures value { result ≡ is_nested (map spelled text.now) }
    ensures within { IsTrue result → 3 ≤ length text.now }
{
    if mark_at(text, 0) == b'[' {
        bits_in(&text[1..]) > 0
    } else {
        false
    }
}

/// Whether the text, which says so many bits, says that it is memory.
#[inline(always)]
pub(crate) fn is_memory(text: &[Token], bits: u8) -> bool
    requires { bits ≡ bits_in (map spelled text.now) }
    ensures { result ≡ is_memory (map spelled text.now) }
{
    bits > 0 || (segment_of(text).is_some() || has_bracket(text))
}

/// Whether the text, which says so many bits, says them in front, and no bracket stands there.
#[inline(always)]
pub(crate) fn says_size(text: &[Token], bits: u8) -> bool
    requires { bits ≡ bits_in (map spelled text.now) }
    ensures memory { IsTrue result → is_memory (map spelled text.now) ≡ true }
    ensures outside { IsTrue result → is_nested (map spelled text.now) ≡ false }
{
    bits > 0 && mark_at(text, 0) != b'['
}

/// The text of the displacement, of what is left of a sum that begins with the mark.
fn displacement_in<'t, 'a>(mark: u8, text: &'t [Token<'a>]) -> &'t [Token<'a>]
    ensures { map spelled result.now ≡ displacement_in mark (map spelled text.now) }
{
    if mark == b'[' && mark_at(text, 0) == b'+' {
        &text[1..]
    } else {
        text
    }
}

/// Memory at this address, with a displacement.
#[inline(always)]
fn moved<'a>(
    alloc: Global,
    text: &[Token<'a>],
    bits: u8,
    address: Address,
) -> Result<SizedOperand<'a>, OperandFault>
    ensures { GivesSo IsSized result (as_memory bits address (value_of (map spelled text.now))) }
{
    match value_of(alloc, text) {
        Ok(value) => Ok(SizedOperand {
            operand: ReadOperand::Memory(address, value),
            bits,
        }),
        Err(refusal) => Err(refusal),
    }
}

/// Memory at this address, with what is left of a sum that begins with the mark.
#[inline(always)]
pub(crate) fn summed_at<'a>(
    alloc: Global,
    text: &[Token<'a>],
    mark: u8,
    bits: u8,
    address: Address,
) -> Result<SizedOperand<'a>, OperandFault>
    ensures { (branch : Bool) → GivesSo IsSized result
        (outlined branch (Some (summed_at bits mark address (map spelled text.now)))) }
{
    if text.is_empty() {
        return Ok(SizedOperand {
            operand: ReadOperand::Memory(address, no_displacement()),
            bits,
        });
    }
    moved(alloc, displacement_in(mark, text), bits, address)
}

/// Memory at the address that the parts make, with what is left of a sum that begins with the mark.
#[inline(always)]
fn summed_by<'a>(
    alloc: Global,
    text: &[Token<'a>],
    parts: Parts,
    mark: u8,
    bits: u8,
    segment: Option<Segment>,
) -> Result<SizedOperand<'a>, OperandFault>
    ensures { (branch : Bool) → GivesSo IsSized result (outlined branch
        (summed_by bits mark (map spelled text.now) (address_of segment parts))) }
{
    match address_of(segment, parts) {
        Some(address) => summed_at(alloc, text, mark, bits, address),
        None => refused(),
    }
}

/// Memory as a sum that was read, which begins with the mark.
#[inline(always)]
fn summed<'a>(
    alloc: Global,
    sum: &ReadSum<'a>,
    mark: u8,
    bits: u8,
    segment: Option<Segment>,
) -> Result<SizedOperand<'a>, OperandFault>
    ensures { (branch : Bool) → GivesSo IsSized result
        (outlined branch (summed bits mark segment (Ok (sum_by sum.now)))) }
{
    if !is_whole(sum) {
        return refused();
    }
    summed_by(alloc, sum.text.as_slice(), sum.parts, mark, bits, segment)
}

/// Memory in brackets that close.
#[inline(never)]
fn summed_any<'a>(
    alloc: Global,
    text: &[Token<'a>],
    bits: u8,
    segment: Option<Segment>,
) -> Result<SizedOperand<'a>, OperandFault>
    requires { 0 < length text.now }
    ensures { (branch : Bool) → GivesSo IsSized result (outlined branch
        (summed bits (mark_at (map spelled text.now) 0) segment
        (sum_of (Ok no_sum) (but_last (map spelled text.now))))) }
{
    match read_sum(alloc, but_last(text)) {
        Ok(sum) => summed(alloc, &sum, mark_at(text, 0), bits, segment),
        Err(OperandFault::Fault(_)) => refused(),
        Err(OperandFault::NoMemory) => Err(OperandFault::NoMemory),
    }
}

/// The same, with a short way for usual sums.
#[inline(always)]
#[tactic(auto, using(crate::proofs::OutlineTexts::lone_summed))]
fn summed_text<'a>(
    alloc: Global,
    text: &[Token<'a>],
    bits: u8,
    segment: Option<Segment>,
) -> Result<SizedOperand<'a>, OperandFault>
    requires { 0 < length text.now }
    ensures { (branch : Bool) → GivesSo IsSized result (outlined branch
        (summed bits (mark_at (map spelled text.now) 0) segment
        (sum_of (Ok no_sum) (but_last (map spelled text.now))))) }
{
    match lone_sum(text) {
        Some(found) => {
            let parts = Parts::One(Part::Plain(found.named));
            let left = &text[found.from..found.to];
            summed_by(alloc, left, parts, mark_at(text, 0), bits, segment)
        }
        None => summed_any(alloc, text, bits, segment),
    }
}

/// Memory in brackets.
#[inline(always)]
#[tactic(auto, unfolding(crate::specs::OperandTexts::bracketed))]
fn bracketed<'a>(
    alloc: Global,
    text: &[Token<'a>],
    bits: u8,
    segment: Option<Segment>,
) -> Result<SizedOperand<'a>, OperandFault>
    ensures { (branch : Bool) → GivesSo IsSized result
        (outlined branch (bracketed bits segment (map spelled text.now))) }
{
    if closes_bracket(text) {
        summed_text(alloc, text, bits, segment)
    } else {
        refused()
    }
}

/// Whether a value without brackets may be memory: in a segment any, elsewhere a symbol to which
/// numbers may be added.
fn is_placed(segment: Option<Segment>, text: &[Token]) -> bool
    ensures { result ≡ is_placed segment (map spelled text.now) }
{
    match segment {
        Some(_) => true,
        None => names_place(text),
    }
}

/// Memory behind its size and its segment.
#[inline(always)]
fn placed<'a>(
    alloc: Global,
    text: &[Token<'a>],
    bits: u8,
    segment: Option<Segment>,
) -> Result<SizedOperand<'a>, OperandFault>
    ensures { (branch : Bool) → GivesSo IsSized result
        (outlined branch (placed bits segment (map spelled text.now))) }
{
    if has_bracket(text) {
        return bracketed(alloc, text, bits, segment);
    }
    if has_register(text) {
        return refused();
    }
    if !is_placed(segment, text) {
        return refused();
    }
    let address = Address {
        segment,
        base: Base::Absent,
        index: Index::Absent,
    };
    moved(alloc, text, bits, address)
}

/// Memory behind its size.
#[inline(always)]
fn segmented<'a>(
    alloc: Global,
    text: &[Token<'a>],
    bits: u8,
) -> Result<SizedOperand<'a>, OperandFault>
    ensures { (branch : Bool) → GivesSo IsSized result
        (let own = map spelled text.now in outlined branch (segmented bits own (segment_of own))) }
{
    match segment_of(text) {
        Some(segment) => placed(alloc, &text[2..], bits, Some(segment)),
        None => placed(alloc, text, bits, None),
    }
}

/// Memory, with a size if it is written: so many bits.
#[inline(always)]
#[tactic(auto, unfolding(crate::specs::OperandTexts::sized))]
pub(crate) fn sized_by<'a>(
    alloc: Global,
    text: &[Token<'a>],
    bits: u8,
) -> Result<SizedOperand<'a>, OperandFault>
    requires said { bits ≡ bits_in (map spelled text.now) }
    requires within { 0 < bits → 2 ≤ length text.now }
    ensures { (branch : Bool) → GivesSo IsSized result
        (outlined branch (sized (map spelled text.now))) }
{
    if bits > 0 {
        segmented(alloc, &text[2..], bits)
    } else {
        segmented(alloc, text, 0)
    }
}

/// The same, where the size was not looked at.
#[inline(never)]
fn sized<'a>(alloc: Global, text: &[Token<'a>]) -> Result<SizedOperand<'a>, OperandFault>
    ensures { (branch : Bool) → GivesSo IsSized result
        (outlined branch (sized (map spelled text.now))) }
{
    sized_by(alloc, text, bits_in(text))
}

/// Memory, which further brackets may stand round.
#[inline(never)]
pub(crate) fn memory_of<'a>(
    alloc: Global,
    text: &[Token<'a>],
) -> Result<SizedOperand<'a>, OperandFault>
    ensures { (branch : Bool) → GivesSo IsSized result
        (outlined branch (memory_of (map spelled text.now))) }
{
    if !is_nested(text) {
        return sized(alloc, text);
    }
    if closes_bracket(text) {
        sized(alloc, &but_last(text)[1..])
    } else {
        refused()
    }
}
