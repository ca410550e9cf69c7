//! The operand size of an instruction: what the mnemonic fixes, or else the size of all rows that
//! take such operands, and memory of so many bits.

ghost use Rattle.std.specs.Prelude.{◌≡◌};
ghost use Rattle.att_operands.specs.Values.{ValueText};
ghost use Rattle.att_insns.specs.InsnTexts.{InsnText, IsInsnOf, text_of, HasTexts};
ghost use Rattle.att_insns.specs.Reading.{Makes};
ghost use Rattle.intel_insns.specs.Sizes.{size_left, sized};

use att_operands::{OperandCause, OperandFault};
use x86_insn::{Insn, Mnemonic};
use x86_lookup::{FormSize, form_size};

/// The instruction gets the size that all rows leave.
#[inline(never)]
fn search_size(insn: &mut Insn, bits: u8) -> Result<(), OperandFault>
    ensures { (i d : ValueText) → HasTexts insn.old i d
        → Makes insn.new result (size_left bits (text_of insn.old i d)) }
{
    match form_size(insn.name, insn, bits) {
        FormSize::Absent => {
            insn.name = Mnemonic(u16::MAX);
            Ok(())
        }
        FormSize::One(size) => {
            insn.size = size;
            Ok(())
        }
        FormSize::Several => Err(OperandFault::Fault(OperandCause::UnknownOperandSize)),
    }
}

/// The instruction gets its size.
#[inline(always)]
fn size_text(insn: &mut Insn, bits: u8) -> Result<(), OperandFault>
    ensures { (i d : ValueText) → HasTexts insn.old i d
        → Makes insn.new result (sized bits (text_of insn.old i d)) }
{
    if insn.size == 0 {
        search_size(insn, bits)
    } else {
        Ok(())
    }
}

/// The same of an instruction that has a text.
#[inline(always)]
pub(crate) fn give_size(insn: &mut Insn, bits: u8) -> Result<(), OperandFault>
    ensures { (due : InsnText) → IsInsnOf insn.old due → Makes insn.new result (sized bits due) }
{
    size_text(insn, bits)
}
