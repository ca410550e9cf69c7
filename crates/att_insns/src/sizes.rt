//! The operand size of an instruction: what the mnemonic fixes, or else the size of all rows that
//! take such operands.

ghost use Rattle.std.specs.Prelude.{◌≡◌};
ghost use Rattle.asm_base.specs.Refusals.{Returns};
ghost use Rattle.att_operands.specs.Values.{ValueText};
ghost use Rattle.x86_lookup.specs.Forms.{width};
ghost use Rattle.att_insns.specs.InsnTexts.{InsnText, IsInsnOf, text_of, HasTexts};
ghost use Rattle.att_insns.specs.Sizes.{size_left, sized};
ghost use Rattle.att_insns.specs.Reading.{Makes};

use att_operands::{OperandCause, OperandFault};
use x86_insn::{Class, Insn};
use x86_lookup::{FormSize, form_size};

/// How many bits the registers of a class have.
#[inline(always)]
pub fn width(class: Class) -> u8
    ensures { result ≡ width class }
{
    match class {
        Class::Byte | Class::High => 8,
        Class::Word => 16,
        Class::Long => 32,
        Class::Quad => 64,
        Class::Xmm => 128,
    }
}

/// The size that the rows leave of the name and the operands: 0 where no row takes them.
#[inline(never)]
fn size_left(insn: &Insn) -> Result<u8, OperandFault>
    ensures { Returns result
        (size_left insn.now.name.0 insn.now.first insn.now.second insn.now.third) }
{
    match form_size(insn.name, insn, 0) {
        FormSize::Absent => Ok(0),
        FormSize::One(size) => Ok(size),
        FormSize::Several => Err(OperandFault::Fault(OperandCause::UnknownOperandSize)),
    }
}

/// The instruction gets its size.
#[inline(always)]
fn size_text(insn: &mut Insn) -> Result<(), OperandFault>
    ensures { (i d : ValueText) → HasTexts insn.old i d
        → Makes insn.new result (sized (text_of insn.old i d)) }
{
    if insn.size == 0 {
        match size_left(insn) {
            Ok(size) => {
                insn.size = size;
                Ok(())
            }
            Err(refusal) => Err(refusal),
        }
    } else {
        Ok(())
    }
}

/// The same of an instruction that has a text.
#[inline(always)]
pub(crate) fn give_size(insn: &mut Insn) -> Result<(), OperandFault>
    ensures { (due : InsnText) → IsInsnOf insn.old due → Makes insn.new result (sized due) }
{
    size_text(insn)
}
