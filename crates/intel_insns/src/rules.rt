//! What the operands of a mnemonic mean beside its rows' patterns.

ghost use Rattle.std.specs.Prelude.{Ok};
ghost use Rattle.att_operands.specs.Values.{ValueText};
ghost use Rattle.att_insns.specs.InsnTexts.{InsnText, IsInsnOf, text_of, HasTexts};
ghost use Rattle.att_insns.specs.Reading.{Makes};
ghost use Rattle.att_insns.specs.Rules.{ruled};
ghost use Rattle.intel_insns.specs.InsnTexts.{FilledText, IsFilled};
ghost use Rattle.intel_insns.specs.Rules.{or_string, if_unsized, meant_by};

use att_insns::{apply, by_bits, is_absent, long_memory, source_bits};
use att_operands::OperandFault;
use x86_insn::{Insn, Mnemonic};
use x86_lookup::Rule;

/// Without operands it is the string instruction of this name, of 32 bits.
fn or_string(insn: &mut Insn, name: u16)
    ensures { (i d : ValueText) → HasTexts insn.old i d
        → IsInsnOf insn.new (or_string name (text_of insn.old i d)) }
{
    if is_absent(insn.first) {
        insn.name = Mnemonic(name);
        insn.size = 32;
    }
}

/// Memory that says no size has 32 bits.
fn if_unsized(insn: &mut Insn, bits: u8)
    ensures { (i d : ValueText) → HasTexts insn.old i d
        → IsInsnOf insn.new (if_unsized bits (text_of insn.old i d)) }
{
    if bits == 0 {
        long_memory(insn);
    }
}

/// What the operands mean by a rule that both syntaxes have.
#[tactic(auto, using(crate::proofs::Fillings::own_text))]
fn applied(insn: &mut Insn, rule: Rule) -> Result<(), OperandFault>
    ensures { (i d : ValueText) → HasTexts insn.old i d
        → Makes insn.new result (Ok (ruled rule (text_of insn.old i d))) }
{
    apply(insn, rule);
    Ok(())
}

/// What the operands mean by the rule of the mnemonic.
fn mean_text(insn: &mut Insn, rule: Rule, bits: u8) -> Result<(), OperandFault>
    ensures { (i d : ValueText) → HasTexts insn.old i d
        → let filled : FilledText = record { insn = text_of insn.old i d; bits = bits } in
        Makes insn.new result (meant_by rule filled) }
{
    match rule {
        Rule::BySource => by_bits(insn, source_bits(bits, insn.second)),
        Rule::OrString(name) => {
            or_string(insn, name);
            Ok(())
        }
        Rule::LongMemory => {
            if_unsized(insn, bits);
            Ok(())
        }
        Rule::Plain => Ok(()),
        Rule::Branch => Ok(()),
        Rule::Predicate(_) => applied(insn, rule),
        Rule::ByOne => applied(insn, rule),
        Rule::ByCl => applied(insn, rule),
        Rule::OneForTwo => applied(insn, rule),
        Rule::MemoryFirst => applied(insn, rule),
        Rule::AccumulatorFirst => applied(insn, rule),
        Rule::WithXmm0 => applied(insn, rule),
        Rule::QuadIsMovq => applied(insn, rule),
        Rule::OrMove => applied(insn, rule),
    }
}

/// The same of an instruction that has a text.
pub(crate) fn mean(insn: &mut Insn, rule: Rule, bits: u8) -> Result<(), OperandFault>
    ensures { (due : FilledText) → IsFilled insn.old bits due
        → Makes insn.new result (meant_by rule due) }
{
    mean_text(insn, rule, bits)
}
