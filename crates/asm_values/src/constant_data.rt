//! Data of numbers: their bytes, without trees, forms or a list of operands.

ghost use Rattle.std.specs.Prelude.{◌≡◌, [], ◌∷◌, ◌++◌, ◌<◌, ◌≤◌, map, length, IfOk, OnOk};
ghost use Rattle.asm_base.specs.Tokens.{spelled};
ghost use Rattle.asm_frags.specs.Fields.{low_bytes};
ghost use Rattle.asm_operands.specs.Constants.{IsConstant};
ghost use Rattle.asm_uses.specs.Values.{IsNumberIn};
ghost use Rattle.asm_values.specs.ConstantData.{FindsData, FindsKnownData, FindsLone, FindsNumberAt, cut_of, ends_at};

use crate::assemblers::Assembler;
use asm_base::{Pos, Token};
use asm_frags::FieldSize;
use asm_operands::{
    PlaceFault, front_constant, front_value, is_mark, lone_constant, single_constant,
};
use asm_uses::{Value, View};
use std::alloc::AllocError;

/// Appends a byte for which there may be no room.
#[inline(never)]
fn append_byte(out: &mut Vec<u8>, byte: u8) -> Result<(), AllocError>
    ensures { OnOk result (out.new.items ≡ out.old.items ++ byte ∷ []) }
{
    Ok(out.push(byte)?)
}

/// Appends the bytes of a value. Where the length is known no call copies them.
#[inline(always)]
#[tactic(auto, unfolding(asm_frags::specs::Fields::low_bytes))]
fn append_constant(out: &mut Vec<u8>, size: FieldSize, value: u64) -> Result<(), AllocError>
    ensures { OnOk result (out.new.items ≡ out.old.items ++ low_bytes size value) }
{
    let bytes = value.to_le_bytes();
    match size {
        FieldSize::One if out.len() < out.capacity() => {
            out.push_reserved(bytes[0]);
            Ok(())
        }
        FieldSize::One => append_byte(out, bytes[0]),
        FieldSize::Two => out.extend_from_slice(&bytes[..2]),
        FieldSize::Four => out.extend_from_slice(&bytes[..4]),
        FieldSize::Eight => out.extend_from_slice(bytes.as_slice()),
    }
}

/// How many of one value do not fit.
fn cut_of(size: FieldSize, value: u64) -> usize
    ensures value { result ≡ cut_of size value }
    ensures within { result ≤ 1 }
{
    if size.fits(value) { 0 } else { 1 }
}

/// A number, and the index of the first token behind its operand.
#[derive(Clone, Copy)]
struct Constant {
    value: u64,
    end: usize,
}

/// Whether an operand ends in front of this token: a comma is here, or nothing.
#[inline(always)]
fn ends_at(tokens: &[Token], at: usize) -> bool
    ensures { result ≡ ends_at (map spelled tokens.now) at }
{
    if at >= tokens.len() {
        return true;
    }
    is_mark(&tokens[at], b',')
}

/// The number that the operand of any tokens is that begins at this one.
#[inline(always)]
fn long_constant(tokens: &[Token], at: usize) -> Option<Constant>
    requires { at ≤ length tokens.now }
    ensures { FindsNumberAt IsConstant (map spelled tokens.now) at result }
{
    let front = front_constant(&tokens[at..])?;
    let end = at + front.length;
    if ends_at(tokens, end) {
        Some(Constant {
            value: front.value,
            end,
        })
    } else {
        None
    }
}

/// The number that the operand is that begins at this token: most are one token.
#[inline(always)]
fn constant_at(tokens: &[Token], at: usize) -> Option<Constant>
    ensures { FindsNumberAt IsConstant (map spelled tokens.now) at result }
{
    if at >= tokens.len() {
        return None;
    }
    let end = at + 1;
    if !ends_at(tokens, end) {
        return long_constant(tokens, at);
    }
    let value = single_constant(&tokens[at])?;
    Some(Constant { value, end })
}

/// Appends the bytes of operands that are all numbers, and counts the values that do not fit, or
/// answers none where one of them is anything else.
#[inline(always)]
fn append_constants(
    out: &mut Vec<u8>,
    size: FieldSize,
    tokens: &[Token],
) -> Result<Option<usize>, AllocError>
    requires tokens { 0 < length tokens.now }
    requires empty { out.old.items ≡ [] }
    ensures { IfOk result (λ found. FindsData size (map spelled tokens.now) out.new.items found) }
{
    let mut cut = 0;
    let mut at = 0;
    'operands: loop {
        let Constant { value, end } = match constant_at(tokens, at) {
            Some(found) => found,
            None => return Ok(None),
        };
        append_constant(out, size, value)?;
        cut += cut_of(size, value);
        if end >= tokens.len() {
            return Ok(Some(cut));
        }
        at = end + 1;
    }
}

/// Makes the bytes of operands that are all numbers, and counts the values that do not fit, or
/// answers none where one of them is anything else. There is a loop for each size.
#[inline(never)]
pub(crate) fn constant_data(
    out: &mut Vec<u8>,
    size: FieldSize,
    tokens: &[Token],
) -> Result<Option<usize>, AllocError>
    ensures { IfOk result (λ found. FindsData size (map spelled tokens.now) out.new.items found) }
{
    out.clear();
    if tokens.is_empty() {
        return Ok(Some(0));
    }
    match size {
        FieldSize::One => append_constants(out, FieldSize::One, tokens),
        FieldSize::Two => append_constants(out, FieldSize::Two, tokens),
        FieldSize::Four => append_constants(out, FieldSize::Four, tokens),
        FieldSize::Eight => append_constants(out, FieldSize::Eight, tokens),
    }
}

/// The number that the operand is that begins at this token, by what is known where the statement stands.
#[inline(always)]
fn known_constant(view: &View, tokens: &[Token], at: usize) -> Option<Constant>
    requires { at ≤ length tokens.now }
    ensures { FindsNumberAt (IsNumberIn view.now) (map spelled tokens.now) at result }
{
    let front = front_value(view, &tokens[at..])?;
    let Value::Number(value) = front.value else {
        return None;
    };
    let end = at + front.length;
    if ends_at(tokens, end) {
        Some(Constant { value, end })
    } else {
        None
    }
}

/// Makes the bytes of operands that are all numbers by what is known where the statement stands, and
/// counts the values that do not fit, or answers none where one of them is anything else.
#[inline(never)]
pub(crate) fn known_data(
    view: &View,
    out: &mut Vec<u8>,
    size: FieldSize,
    tokens: &[Token],
) -> Result<Option<usize>, AllocError>
    ensures { IfOk result (λ found.
        FindsKnownData view.now size (map spelled tokens.now) out.new.items found) }
{
    out.clear();
    if tokens.is_empty() {
        return Ok(None);
    }
    let mut cut = 0;
    let mut at = 0;
    'operands: loop {
        let Constant { value, end } = match known_constant(view, tokens, at) {
            Some(found) => found,
            None => return Ok(None),
        };
        append_constant(out, size, value)?;
        cut += cut_of(size, value);
        if end >= tokens.len() {
            return Ok(Some(cut));
        }
        at = end + 1;
    }
}

/// The number that all tokens are: one, or two with a prefix operator. None says nothing of the operands.
#[inline(always)]
pub(crate) fn lone_number(tokens: &[Token]) -> Option<u64>
    ensures { FindsLone (map spelled tokens.now) result }
{
    lone_constant(tokens)
}

impl Assembler {
    ghost use Rattle.asm_base.specs.Refusals.{Gives};
    ghost use Rattle.asm_values.specs.Answers.{KeepsNotes};
    ghost use Rattle.asm_values.specs.ConstantData.{put_any, put_constants, put_lone};
    ghost use Rattle.asm_values.specs.State.{put_bytes};
    ghost use Rattle.asm_values.specs.PlacedBy.{placed_by, PlacesBy};

    /// Puts the bytes of the statement last in the current section, where there are any.
    fn put_any_scratch(&mut self, pos: Pos) -> Result<(), PlaceFault>
        ensures placed { PlacesBy (put_any pos self.old.scratch.items) self.old self.new result }
        ensures kept { self.new.notes ≡ self.old.notes }
    {
        if self.scratch.is_empty() {
            Ok(())
        } else {
            self.put_scratch(pos)
        }
    }

    /// Puts the bytes of a value.
    #[tactic(auto, unfolding(asm_frags::specs::Fields::low_bytes))]
    pub(crate) fn put_constant(
        &mut self,
        pos: Pos,
        size: FieldSize,
        value: u64,
    ) -> Result<(), PlaceFault>
        ensures placed { PlacesBy (put_bytes pos (low_bytes size value))
            self.old self.new result }
        ensures kept { self.new.notes ≡ self.old.notes }
    {
        let bytes = value.to_le_bytes();
        self.put_bytes(pos, &bytes[..size.bytes()])
    }

    /// Puts the bytes of one number, with a note where it does not fit.
    pub(crate) fn put_lone(
        &mut self,
        pos: Pos,
        size: FieldSize,
        value: u64,
    ) -> Result<(), PlaceFault>
        ensures placed { PlacesBy (put_lone pos size value) self.old self.new result }
        ensures kept { KeepsNotes result self.old.notes self.new.notes }
    {
        self.put_constant(pos, size, value)?;
        self.warn(pos, cut_of(size, value))?;
        Ok(())
    }

    /// Puts the bytes of numbers, so many of which do not fit.
    pub(crate) fn put_constants(&mut self, pos: Pos, cut: usize) -> Result<(), PlaceFault>
        ensures placed { PlacesBy (put_constants pos self.old.scratch.items cut)
            self.old self.new result }
        ensures kept { KeepsNotes result self.old.notes self.new.notes }
    {
        self.put_any_scratch(pos)?;
        self.warn(pos, cut)?;
        Ok(())
    }
}
