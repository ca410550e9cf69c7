//! What holds of the texts of all sums.

ghost use Rattle.intel_sums.specs.SumLaws.{SumsAreRead, SumsAreWritten, CalmTokensStay};

/// A text of a sum is read as it, and a whole sum that is read is written there.
#[tactic(auto, using(crate::proofs::SumTexts::sums_are_read, crate::proofs::SumTexts::sums_are_written))]
pub fn sums_are_read()
    ensures read { SumsAreRead }
    ensures written { SumsAreWritten }
{}

/// A number, a name that is no register, or `-` stays in the text of a sum, and is no comma.
pub fn calm_tokens_stay()
    ensures { CalmTokensStay }
{}
