//! What holds of the texts of all instructions.

ghost use Rattle.std.specs.Prelude.{◌≡◌, List, Ok};
ghost use Rattle.asm_base.specs.Tokens.{SpelledToken};
ghost use Rattle.att_insns.specs.InsnTexts.{InsnText};
ghost use Rattle.intel_insns.specs.Reading.{insn_of};
ghost use Rattle.intel_insns.specs.Spells.{Spells};
ghost use Rattle.att_operands.specs.declared.faults.OperandCause.{OperandCause};
ghost use Rattle.intel_insns.specs.Failing.{HasFaultExactly};
ghost use Rattle.intel_insns.specs.WorkedInsns.{WorkedInsns};

/// Tokens that spell an instruction are read as that instruction.
pub fn spelled_is_read()
    ensures { (insn : InsnText) (tokens : List SpelledToken)
        → Spells insn tokens → insn_of tokens ≡ Ok insn }
{
    intel_operands::spelled_is_read();
}

/// Tokens that are read as an instruction spell it.
pub fn read_is_spelled()
    ensures { (insn : InsnText) (tokens : List SpelledToken)
        → insn_of tokens ≡ Ok insn → Spells insn tokens }
{
    intel_operands::read_is_spelled();
}

/// Tokens spell one instruction.
pub fn one_insn()
    ensures { (one other : InsnText) (tokens : List SpelledToken)
        → Spells one tokens → Spells other tokens → one ≡ other }
{
    intel_operands::spelled_is_read();
}

/// An instruction is refused exactly for the fault that it has: no mnemonic, or that of the first
/// operand that has one, or no operand size.
pub fn faults_of_an_insn()
    ensures { (tokens : List SpelledToken) (cause : OperandCause) → HasFaultExactly tokens cause }
{
    intel_operands::spelled_is_read();
    intel_operands::read_is_spelled();
    intel_operands::faults_of_an_operand();
}

/// Instructions in the bytes of statements, and what they are read as, worked out by hand.
#[tactic(auto, using(crate::proofs::WorkedTexts::worked))]
pub fn worked_insns()
    ensures { WorkedInsns }
{}
