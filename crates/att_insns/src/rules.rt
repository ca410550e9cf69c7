//! What the operands of a mnemonic mean beside its rows' patterns.

ghost use Rattle.std.specs.Prelude.{◌≡◌};
ghost use Rattle.x86_lookup.specs.Mnemonics.{is_by_source};
ghost use Rattle.att_operands.specs.Values.{ValueText, IsValueOf};
ghost use Rattle.att_insns.specs.InsnTexts.{InsnText, IsInsnOf, text_of, HasTexts};
ghost use Rattle.att_insns.specs.Rules.{number_text, with_predicate, by_one, by_cl, one_for_two, memory_first, accumulator_first, without_xmm0, quad_is_movq, or_move, long_memory, ruled, is_branch};

use crate::slots::{
    is_absent, is_accumulator, is_immediate, is_memory, is_quad, is_register, is_xmm, is_xmm0,
};
use x86_insn::{Amount, Class, Insn, Mnemonic, Reg, Slot, Value};
use x86_lookup::Rule;
use x86_table::mnemonics::integers::MOV;
use x86_table::mnemonics::vectors::MOVQ;

/// The value of a number.
#[inline(always)]
#[tactic(auto, unfolding(asm_expr::specs::Linear::linear))]
fn number_value<'a>(number: u8) -> Value<'a>
    ensures { IsValueOf result (number_text number) }
{
    Value {
        amount: Amount::Number(u64::from(number)),
        suffix: None,
    }
}

/// The number becomes the third operand.
fn with_predicate(insn: &mut Insn, number: u8)
    ensures { (i d : ValueText) → HasTexts insn.old i d
        → IsInsnOf insn.new (with_predicate number (text_of insn.old i d)) }
{
    if is_absent(insn.third) {
        insn.third = Slot::Immediate;
        insn.immediate = number_value(number);
    } else {
        insn.name = Mnemonic(u16::MAX);
    }
}

/// One operand alone is shifted by 1.
fn by_one(insn: &mut Insn)
    ensures { (i d : ValueText) → HasTexts insn.old i d
        → IsInsnOf insn.new (by_one (text_of insn.old i d)) }
{
    if is_absent(insn.second) && !is_absent(insn.first) {
        insn.second = Slot::Immediate;
        insn.immediate = number_value(1);
    }
}

/// Two operands without a third are shifted by cl.
fn by_cl(insn: &mut Insn)
    ensures { (i d : ValueText) → HasTexts insn.old i d
        → IsInsnOf insn.new (by_cl (text_of insn.old i d)) }
{
    if is_absent(insn.third) && !is_absent(insn.second) {
        insn.third = Slot::Register(Reg {
            class: Class::Byte,
            number: 1,
        });
    }
}

/// A register before an immediate stands for the first two operands.
fn one_for_two(insn: &mut Insn)
    ensures { (i d : ValueText) → HasTexts insn.old i d
        → IsInsnOf insn.new (one_for_two (text_of insn.old i d)) }
{
    if is_register(insn.first) && (is_immediate(insn.second) && is_absent(insn.third)) {
        insn.third = insn.second;
        insn.second = insn.first;
    }
}

/// The first two operands change places.
#[inline(always)]
fn exchange(insn: &mut Insn)
    ensures { insn.new ≡ record insn.old { first = insn.old.second; second = insn.old.first } }
{
    let first = insn.first;
    insn.first = insn.second;
    insn.second = first;
}

/// Of a register and memory, memory is the first.
fn memory_first(insn: &mut Insn)
    ensures { (i d : ValueText) → HasTexts insn.old i d
        → IsInsnOf insn.new (memory_first (text_of insn.old i d)) }
{
    if is_register(insn.first) && is_memory(insn.second) {
        exchange(insn);
    }
}

/// Of a register and memory, memory is the first, and of two registers the accumulator.
fn accumulator_first(insn: &mut Insn)
    ensures { (i d : ValueText) → HasTexts insn.old i d
        → IsInsnOf insn.new (accumulator_first (text_of insn.old i d)) }
{
    if is_register(insn.first) && (is_memory(insn.second) || is_accumulator(insn.second)) {
        exchange(insn);
    }
}

/// The register xmm0 as the third operand is not shown.
fn without_xmm0(insn: &mut Insn)
    ensures { (i d : ValueText) → HasTexts insn.old i d
        → IsInsnOf insn.new (without_xmm0 (text_of insn.old i d)) }
{
    if is_xmm0(insn.third) {
        insn.third = Slot::Absent;
    }
}

/// With a 64-bit register the name is that of `movq`.
fn quad_is_movq(insn: &mut Insn)
    ensures { (i d : ValueText) → HasTexts insn.old i d
        → IsInsnOf insn.new (quad_is_movq (text_of insn.old i d)) }
{
    if is_quad(insn.first) || (is_quad(insn.second) || is_quad(insn.third)) {
        insn.name = Mnemonic(MOVQ);
    }
}

/// Without a 128-bit register, and without a letter more, `movq` is `mov` of 64 bits.
#[inline(always)]
fn or_move(insn: &mut Insn)
    ensures { (i d : ValueText) → HasTexts insn.old i d
        → IsInsnOf insn.new (or_move (text_of insn.old i d)) }
{
    if is_xmm(insn.first) || (is_xmm(insn.second) || is_xmm(insn.third)) || insn.size != 0 {
        return;
    }
    insn.name = Mnemonic(MOV);
    insn.size = 64;
}

/// Memory has 32 bits where no letter says its size.
pub fn long_memory(insn: &mut Insn)
    ensures { (i d : ValueText) → HasTexts insn.old i d
        → IsInsnOf insn.new (long_memory (text_of insn.old i d)) }
{
    if (is_memory(insn.first) || (is_memory(insn.second) || is_memory(insn.third)))
        && insn.size == 0
    {
        insn.size = 32;
    }
}

/// What the operands mean by a rule that few mnemonics have.
#[inline(never)]
fn rarely(insn: &mut Insn, rule: Rule)
    ensures { (i d : ValueText) → HasTexts insn.old i d
        → IsInsnOf insn.new (ruled rule (text_of insn.old i d)) }
{
    match rule {
        Rule::Plain => {}
        Rule::Predicate(number) => with_predicate(insn, number),
        Rule::ByOne => by_one(insn),
        Rule::ByCl => by_cl(insn),
        Rule::OneForTwo => one_for_two(insn),
        Rule::MemoryFirst => memory_first(insn),
        Rule::AccumulatorFirst => accumulator_first(insn),
        Rule::WithXmm0 => without_xmm0(insn),
        Rule::Branch => {}
        Rule::QuadIsMovq => quad_is_movq(insn),
        Rule::LongMemory => long_memory(insn),
        Rule::OrMove => or_move(insn),
        Rule::BySource => {}
        Rule::OrString(_) => {}
    }
}

/// What the operands mean by any rule but that of a source's size.
#[inline(always)]
pub(crate) fn apply_text(insn: &mut Insn, rule: Rule)
    ensures { (i d : ValueText) → HasTexts insn.old i d
        → IsInsnOf insn.new (ruled rule (text_of insn.old i d)) }
{
    match rule {
        Rule::Plain => {}
        _ => rarely(insn, rule),
    }
}

/// The same of an instruction that has a text.
#[inline(always)]
pub fn apply(insn: &mut Insn, rule: Rule)
    ensures { (due : InsnText) → IsInsnOf insn.old due → IsInsnOf insn.new (ruled rule due) }
{
    apply_text(insn, rule);
}

/// Whether the name is by the size of the source.
#[inline(always)]
pub(crate) fn is_by_source(rule: Rule) -> bool
    ensures { result ≡ is_by_source rule }
{
    matches!(rule, Rule::BySource)
}

/// Whether an expression without a mark is the target of a branch.
#[inline(always)]
pub fn is_branch(rule: Rule) -> bool
    ensures { result ≡ is_branch rule }
{
    matches!(rule, Rule::Branch)
}
