//! What holds of all direct jumps, and of padding.

ghost use Rattle.std.specs.Prelude.{◌≡◌, ℕ, Some};
ghost use Rattle.item_bytes.specs.Jumps.{number_of, condition_of};
ghost use Rattle.item_bytes.specs.declared.jumps.Condition.{Condition as TheCondition};
ghost use Rattle.jump_laws.specs.JumpReadings.{JumpCodesRead};
ghost use Rattle.jump_laws.specs.PaddingReadings.{NopsWriteNothing, PaddingReads};

/// The bytes of a jump, short or near, read as the jump under its condition over the distance that they hold.
#[tactic(auto, using(crate::proofs::JumpReads::codes_read))]
pub fn jump_codes_read()
    ensures { JumpCodesRead }
{}

/// The condition of a number is the one that has the number.
#[tactic(auto, using(crate::proofs::ConditionNumbers::numbered))]
pub fn conditions_are_numbered()
    ensures { (number : ℕ) (condition : TheCondition) → condition_of number ≡ Some condition
        → number ≡ number_of condition }
{}

/// Padding of code reads as no-operations, one behind the other: each is `nop`, or exchanges a register of
/// 16 bits with itself.
#[tactic(auto, using(crate::proofs::PaddingReads::padding_reads))]
pub fn padding_reads()
    ensures { PaddingReads }
{}

/// By the table `nop` writes no register and stores nothing, whatever its operand.
#[tactic(auto, using(crate::proofs::PaddingReads::nops_write_nothing))]
pub fn nops_write_nothing()
    ensures { NopsWriteNothing }
{}
