//! The moves that extend a source of fewer bits, by how many it has.

ghost use Rattle.std.specs.Prelude.{◌≡◌};
ghost use Rattle.att_operands.specs.Values.{ValueText};
ghost use Rattle.att_insns.specs.InsnTexts.{InsnText, IsInsnOf, text_of, HasTexts};
ghost use Rattle.att_insns.specs.Sources.{word_name, long_name, source_name, source_bits, from_unsized, by_bits, said_bits, by_source, meant_by};
ghost use Rattle.att_insns.specs.Reading.{Makes};

use crate::rules::{apply_text, is_by_source};
use crate::sizes::width;
use att_operands::{OperandCause, OperandFault};
use x86_insn::{Insn, Mnemonic, Slot};
use x86_lookup::{FormSize, Rule, form_size};
use x86_table::mnemonics::integers::{MOVSX_BYTE, MOVSX_WORD, MOVSXD, MOVZX_BYTE, MOVZX_WORD};

/// The name of the move from 8 bits, from 16 bits.
#[inline(always)]
fn word_name(name: u16) -> u16
    ensures { result ≡ word_name name }
{
    if name == MOVZX_BYTE {
        MOVZX_WORD
    } else if name == MOVSX_BYTE {
        MOVSX_WORD
    } else {
        name
    }
}

/// And from 32 bits, which extends the sign alone.
#[inline(always)]
fn long_name(name: u16) -> u16
    ensures { result ≡ long_name name }
{
    if name == MOVSX_BYTE { MOVSXD } else { u16::MAX }
}

/// And from so many.
#[inline(always)]
fn source_name(bits: u8, name: u16) -> u16
    ensures { result ≡ source_name bits name }
{
    match bits {
        8 => name,
        16 => word_name(name),
        32 => long_name(name),
        _ => u16::MAX,
    }
}

/// How many bits the source has, of which memory says so many, or 0 where none are said.
#[inline(always)]
pub fn source_bits(bits: u8, source: Slot) -> u8
    ensures { result ≡ source_bits bits source }
{
    match source {
        Slot::Register(reg) => width(reg.class),
        Slot::Memory => bits,
        _ => 8,
    }
}

/// The source in memory says no size: it has 8 bits, if it can't have 16.
fn from_unsized(insn: &Insn) -> Result<(), OperandFault>
    ensures { (i d : ValueText) → HasTexts insn.now i d
        → Makes insn.now result (from_unsized (text_of insn.now i d)) }
{
    match form_size(Mnemonic(word_name(insn.name.0)), insn, 0) {
        FormSize::Absent => Ok(()),
        FormSize::One(_) => Err(OperandFault::Fault(OperandCause::UnknownOperandSize)),
        FormSize::Several => Err(OperandFault::Fault(OperandCause::UnknownOperandSize)),
    }
}

/// The instruction by the bits of its source.
pub fn by_bits(insn: &mut Insn, bits: u8) -> Result<(), OperandFault>
    ensures { (i d : ValueText) → HasTexts insn.old i d
        → Makes insn.new result (by_bits (text_of insn.old i d) bits) }
{
    if bits == 0 {
        return from_unsized(insn);
    }
    insn.name = Mnemonic(source_name(bits, insn.name.0));
    Ok(())
}

/// How many bits the source has, by the size that the letter of the mnemonic fixes or else by its
/// register, or 0 where neither says it.
#[inline(always)]
fn said_bits(size: u8, source: Slot) -> u8
    ensures { result ≡ said_bits size source }
{
    if size == 0 {
        source_bits(0, source)
    } else {
        size
    }
}

/// The instruction by what says the bits of its source, which are not its operand size.
#[inline(never)]
#[tactic(auto, using(crate::proofs::Fillings::unsized_texts))]
fn by_source(insn: &mut Insn) -> Result<(), OperandFault>
    ensures { (i d : ValueText) → HasTexts insn.old i d
        → Makes insn.new result (by_source (text_of insn.old i d)) }
{
    let bits = said_bits(insn.size, insn.second);
    insn.size = 0;
    by_bits(insn, bits)
}

/// What the operands mean by the rule of the mnemonic, if the bits of a source are known.
#[inline(always)]
fn mean_text(insn: &mut Insn, rule: Rule) -> Result<(), OperandFault>
    ensures { (i d : ValueText) → HasTexts insn.old i d
        → Makes insn.new result (meant_by rule (text_of insn.old i d)) }
{
    if is_by_source(rule) {
        return by_source(insn);
    }
    apply_text(insn, rule);
    Ok(())
}

/// The same of an instruction that has a text.
#[inline(always)]
pub(crate) fn mean(insn: &mut Insn, rule: Rule) -> Result<(), OperandFault>
    ensures { (due : InsnText) → IsInsnOf insn.old due
        → Makes insn.new result (meant_by rule due) }
{
    mean_text(insn, rule)
}
