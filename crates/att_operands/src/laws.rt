//! What holds of the texts of all operands.

ghost use Rattle.std.specs.Prelude.{◌≡◌, ℕ, ◌<◌, ◌++◌, Bool, true, List, drop, get_or, Ok};
ghost use Rattle.asm_base.specs.Tokens.{SpelledToken};
ghost use Rattle.att_operands.specs.OperandTexts.{OperandText, ReadPart, operand_at};
ghost use Rattle.att_operands.specs.Spells.{SpellsOperand, ends, IsReadWhole, IsSpelledIn};
ghost use Rattle.att_operands.specs.Failing.{HasFaultExactly};
ghost use Rattle.att_operands.specs.declared.faults.OperandCause.{OperandCause};
ghost use Rattle.att_operands.specs.WholeValues.{ValuesAreRead, ValuesAreWritten, RefusedValuesFail, FailingValuesAreRefused};
ghost use Rattle.att_operands.specs.Registers.{register_of};
ghost use Rattle.att_operands.specs.Slots.{held_by, key_of};
ghost use Rattle.att_operands.specs.WorkedOperands.{WorkedOperands};

use expr_texts::{faults_of_an_expression, read_is_written, written_is_read};

/// A text of an operand is read as that operand, whatever stands before it, where a comma or
/// nothing stands behind it.
pub fn spelled_is_read()
    ensures { (branch : Bool) (operand : OperandText) (tokens : List SpelledToken) (at : ℕ)
        (text behind : List SpelledToken) → SpellsOperand branch operand text
        → drop at tokens ≡ text ++ behind → ends behind ≡ true
        → IsReadWhole branch operand tokens at text }
{
    written_is_read();
}

/// What is read as an operand begins with a text of it, behind which a comma or nothing stands.
pub fn read_is_spelled()
    ensures { (branch : Bool) (tokens : List SpelledToken) (at : ℕ) (found : ReadPart)
        → operand_at branch tokens at ≡ Ok found → IsSpelledIn branch tokens at found }
{
    read_is_written();
}

/// A text of a value is read as it, and a value that is read from a whole text is written there.
pub fn values_are_read()
    ensures read { ValuesAreRead }
    ensures written { ValuesAreWritten }
{
    written_is_read();
    read_is_written();
}

/// A value is refused exactly where its expression fails, and for that.
pub fn faults_of_a_value()
    ensures fail { RefusedValuesFail }
    ensures refused { FailingValuesAreRefused }
{
    faults_of_an_expression();
}

/// A text spells one operand.
pub fn one_operand()
    ensures { (branch : Bool) (one other : OperandText) (text : List SpelledToken)
        → SpellsOperand branch one text → SpellsOperand branch other text → one ≡ other }
{
    written_is_read();
}

/// An operand is refused exactly for the fault that it has: that of its expression where that fails,
/// and else a bad operand where nothing is spelled.
pub fn faults_of_an_operand()
    ensures { (branch : Bool) (tokens : List SpelledToken) (at : ℕ) (cause : OperandCause)
        → HasFaultExactly branch tokens at cause }
{
    written_is_read();
    read_is_written();
    faults_of_an_expression();
}

/// What a text names as a register, in either case, is what the slot of its lower-case bytes holds.
#[tactic(auto, using(crate::proofs::RegisterLookups::register_found))]
pub fn registers_have_slots()
    ensures { (text : List ℕ) → ((i : ℕ) → get_or text i 0 < 256)
        → held_by (key_of text) ≡ register_of text }
{}

/// Operands in the bytes of statements, and what they are read as, worked out by hand.
#[tactic(auto, using(crate::proofs::WorkedTexts::worked))]
pub fn worked_operands()
    ensures { WorkedOperands }
{}
