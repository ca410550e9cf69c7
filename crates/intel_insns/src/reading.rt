//! From the tokens of a statement to an instruction.

ghost use Rattle.std.specs.Prelude.{◌≡◌, map};
ghost use Rattle.asm_base.specs.Tokens.{spelled};
ghost use Rattle.att_operands.specs.Values.{GivesSo};
ghost use Rattle.att_insns.specs.InsnTexts.{blank, IsInsnOf};
ghost use Rattle.att_insns.specs.Reading.{Makes};
ghost use Rattle.intel_insns.specs.InsnTexts.{FilledText, IsFilled};
ghost use Rattle.intel_insns.specs.Heads.{head};
ghost use Rattle.intel_insns.specs.Reading.{finished, headed_insn, insn_of};

use crate::filling::put_all;
use crate::heads::{FoundHead, head_of};
use crate::rules::mean;
use crate::sizes::give_size;
use asm_base::Token;
use att_insns::{blank, is_branch};
use att_operands::{OperandCause, OperandFault};
use std::alloc::Global;
use x86_insn::{Insn, Mnemonic, Prefix};

/// What the operands mean by the rule of the mnemonic, and the size.
#[inline(always)]
fn finish(insn: &mut Insn, found: FoundHead, bits: u8) -> Result<(), OperandFault>
    ensures { (due : FilledText) → IsFilled insn.old bits due
        → Makes insn.new result (finished (head found.named.now found.prefix found.next) due) }
{
    match mean(insn, found.named.rule, bits) {
        Ok(()) => give_size(insn, bits),
        Err(refusal) => Err(refusal),
    }
}

/// The instruction gets its operands and its size.
#[inline(always)]
fn fill<'a>(
    alloc: Global,
    tokens: &[Token<'a>],
    found: FoundHead,
    insn: &mut Insn<'a>,
) -> Result<(), OperandFault>
    ensures { IsInsnOf insn.old (blank found.named.now.name found.named.now.size found.prefix)
        → Makes insn.new result (headed_insn (map spelled tokens.now)
        (head found.named.now found.prefix found.next)) }
{
    match put_all(alloc, tokens, found.next, is_branch(found.named.rule), insn) {
        Ok(bits) => finish(insn, found, bits),
        Err(refusal) => Err(refusal),
    }
}

/// The instruction that the tokens of a statement are takes the place of another one. After a fault
/// anything may stand there.
#[tactic(auto, unfolding(crate::specs::Reading::insn_of))]
pub fn read_into<'a>(
    alloc: Global,
    tokens: &[Token<'a>],
    insn: &mut Insn<'a>,
) -> Result<(), OperandFault>
    ensures { Makes insn.new result (insn_of (map spelled tokens.now)) }
{
    match head_of(tokens) {
        Some(found) => {
            *insn = blank(found.named.name, found.named.size, found.prefix);
            fill(alloc, tokens, found, insn)
        }
        None => Err(OperandFault::Fault(OperandCause::UnknownMnemonic)),
    }
}

/// The instruction that the tokens of a statement are.
pub fn read_insn<'a>(alloc: Global, tokens: &[Token<'a>]) -> Result<Insn<'a>, OperandFault>
    ensures { GivesSo IsInsnOf result (insn_of (map spelled tokens.now)) }
{
    let mut insn = blank(Mnemonic(0), 0, Prefix::Absent);
    match read_into(alloc, tokens, &mut insn) {
        Ok(()) => Ok(insn),
        Err(refusal) => Err(refusal),
    }
}
