//! What holds of the texts of all operands.

ghost use Rattle.std.specs.Prelude.{◌≡◌, ℕ, ◌++◌, Bool, true, List, drop, Ok};
ghost use Rattle.asm_base.specs.Tokens.{SpelledToken};
ghost use Rattle.att_operands.specs.declared.faults.OperandCause.{OperandCause};
ghost use Rattle.intel_operands.specs.OperandTexts.{SizedText, ReadPart, operand_at};
ghost use Rattle.intel_operands.specs.Spells.{SpellsOperand, ends, IsReadWhole, IsSpelledIn};
ghost use Rattle.intel_operands.specs.Failing.{HasFaultExactly};
ghost use Rattle.intel_operands.specs.WorkedOperands.{WorkedOperands};

/// A text of an operand is read as that operand, whatever stands before it, where a comma or
/// nothing stands behind it.
pub fn spelled_is_read()
    ensures { (branch : Bool) (operand : SizedText) (tokens : List SpelledToken) (at : ℕ)
        (text behind : List SpelledToken) → SpellsOperand branch operand text
        → drop at tokens ≡ text ++ behind → ends behind ≡ true
        → IsReadWhole branch operand tokens at text }
{
    att_operands::values_are_read();
    intel_sums::sums_are_read();
}

/// What is read as an operand begins with a text of it, behind which a comma or nothing stands.
pub fn read_is_spelled()
    ensures { (branch : Bool) (tokens : List SpelledToken) (at : ℕ) (found : ReadPart)
        → operand_at branch tokens at ≡ Ok found → IsSpelledIn branch tokens at found }
{
    att_operands::values_are_read();
    intel_sums::sums_are_read();
}

/// A text spells one operand.
pub fn one_operand()
    ensures { (branch : Bool) (one other : SizedText) (text : List SpelledToken)
        → SpellsOperand branch one text → SpellsOperand branch other text → one ≡ other }
{
    att_operands::values_are_read();
    intel_sums::sums_are_read();
}

/// An operand is refused exactly for the fault that it has: that of its expression where that fails,
/// and else a bad operand where nothing is spelled.
pub fn faults_of_an_operand()
    ensures { (branch : Bool) (tokens : List SpelledToken) (at : ℕ) (cause : OperandCause)
        → HasFaultExactly branch tokens at cause }
{
    att_operands::values_are_read();
    intel_sums::sums_are_read();
    att_operands::faults_of_a_value();
}

/// Operands in the bytes of statements, and what they are read as, worked out by hand.
#[tactic(auto, using(crate::proofs::WorkedTexts::worked))]
pub fn worked_operands()
    ensures { WorkedOperands }
{}
