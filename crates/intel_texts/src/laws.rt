//! What holds of texts in Intel syntax.

ghost use Rattle.intel_texts.specs.TextLaws.{OperandsSpell};
ghost use Rattle.intel_texts.specs.WorkedTexts.{WorkedTexts};

/// The text of an operand spells it: of a register, of a number, of memory after its size word and its
/// segment, and of a branch target.
#[tactic(auto, using(crate::proofs::OperandLaws::operands_spell))]
pub fn operands_spell()
    ensures { OperandsSpell }
{
    att_texts::pieces_spell();
}

/// Texts of bytes, worked out by hand.
#[tactic(auto, using(crate::proofs::WorkedRows::worked_texts))]
pub fn worked_texts()
    ensures { WorkedTexts }
{}
