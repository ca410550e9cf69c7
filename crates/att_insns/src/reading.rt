//! From the tokens of a statement to an instruction.

ghost use Rattle.std.specs.Prelude.{◌≡◌, map};
ghost use Rattle.asm_base.specs.Tokens.{spelled};
ghost use Rattle.att_operands.specs.Values.{GivesSo, IsValueOf};
ghost use Rattle.att_operands.specs.OperandTexts.{no_displacement};
ghost use Rattle.att_insns.specs.InsnTexts.{InsnText, blank, IsInsnOf};
ghost use Rattle.x86_lookup.specs.Mnemonics.{of_size};
ghost use Rattle.att_insns.specs.Heads.{head};
ghost use Rattle.att_insns.specs.Reading.{Makes, finished, headed_insn, insn_of};

use crate::filling::put_all;
use crate::heads::{FoundHead, head_of};
use crate::rules::is_branch;
use crate::sizes::give_size;
use crate::sources::mean;
use asm_base::Token;
use att_operands::{OperandCause, OperandFault};
use std::alloc::Global;
use x86_insn::{Address, Amount, Base, Index, Insn, Mnemonic, Prefix, Slot, Value};
use x86_lookup::Rule;

/// The number 0.
#[inline(always)]
#[tactic(auto, unfolding(asm_expr::specs::Linear::linear))]
fn zero<'a>() -> Value<'a>
    ensures { IsValueOf result no_displacement }
{
    Value {
        amount: Amount::Number(0),
        suffix: None,
    }
}

/// An instruction without operands.
#[inline(always)]
pub fn blank<'a>(name: Mnemonic, size: u8, prefix: Prefix) -> Insn<'a>
    ensures { IsInsnOf result (blank name size prefix) }
{
    Insn {
        name,
        size,
        prefix,
        first: Slot::Absent,
        second: Slot::Absent,
        third: Slot::Absent,
        address: Address {
            segment: None,
            base: Base::Absent,
            index: Index::Absent,
        },
        immediate: zero(),
        displacement: zero(),
    }
}

/// What the operands mean by the rule of the mnemonic, and the size.
#[inline(always)]
fn finish(insn: &mut Insn, rule: Rule) -> Result<(), OperandFault>
    ensures { (due : InsnText) → IsInsnOf insn.old due
        → Makes insn.new result (finished rule due) }
{
    match mean(insn, rule) {
        Ok(()) => give_size(insn),
        Err(refusal) => Err(refusal),
    }
}

/// The instruction gets its operands and its size.
#[inline(always)]
fn fill<'a>(
    alloc: Global,
    tokens: &[Token<'a>],
    found: FoundHead,
    insn: &mut Insn<'a>,
) -> Result<(), OperandFault>
    ensures { IsInsnOf insn.old (blank found.name.named.now.name found.name.size found.prefix)
        → Makes insn.new result (headed_insn (map spelled tokens.now)
        (head (of_size found.name.named.now found.name.size) found.prefix found.next)) }
{
    let rule = found.name.named.rule;
    match put_all(alloc, tokens, found.next, is_branch(rule), insn) {
        Ok(()) => finish(insn, rule),
        Err(refusal) => Err(refusal),
    }
}

/// The instruction that the tokens of a statement are takes the place of another one. After a fault
/// anything may stand there.
#[tactic(auto, unfolding(crate::specs::Reading::insn_of))]
pub fn read_into<'a>(
    alloc: Global,
    tokens: &[Token<'a>],
    insn: &mut Insn<'a>,
) -> Result<(), OperandFault>
    ensures { Makes insn.new result (insn_of (map spelled tokens.now)) }
{
    match head_of(tokens) {
        Some(found) => {
            *insn = blank(found.name.named.name, found.name.size, found.prefix);
            fill(alloc, tokens, found, insn)
        }
        None => Err(OperandFault::Fault(OperandCause::UnknownMnemonic)),
    }
}

/// The instruction that the tokens of a statement are.
pub fn read_insn<'a>(alloc: Global, tokens: &[Token<'a>]) -> Result<Insn<'a>, OperandFault>
    ensures { GivesSo IsInsnOf result (insn_of (map spelled tokens.now)) }
{
    let mut insn = blank(Mnemonic(0), 0, Prefix::Absent);
    match read_into(alloc, tokens, &mut insn) {
        Ok(()) => Ok(insn),
        Err(refusal) => Err(refusal),
    }
}
