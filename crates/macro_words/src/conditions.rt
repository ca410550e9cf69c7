//! What conditions and counts ask (GNU as manual, ".if" and ".rept").

ghost use Rattle.std.specs.Prelude.{◌≡◌};
ghost use Rattle.macro_words.specs.Conditions as spec;

use crate::words::Condition;

/// The least number that is negative with its sign.
const LEAST_NEGATIVE: u64 = 1 << 63;

/// Whether a value with its sign is below 0.
fn is_negative(value: u64) -> bool
    ensures { result ≡ spec.is_negative value }
{
    value >= LEAST_NEGATIVE
}

/// The count of a repeat: one below 0 counts as 0.
pub fn count_of(value: u64) -> u64
    ensures { result ≡ spec.count_of value }
{
    if is_negative(value) { 0 } else { value }
}

impl Condition {
    ghost use Rattle.std.specs.Prelude.{◌≡◌};
    ghost use Rattle.macro_words.specs.Conditions as spec;

    /// What a condition asks of a value; one that asks for none never holds.
    pub fn asks(self, value: u64) -> bool
        ensures { result ≡ spec.asks self value }
    {
        match self {
            Condition::NotZero => value != 0,
            Condition::Zero => value == 0,
            Condition::Negative => is_negative(value),
            Condition::NotPositive => is_negative(value) || value == 0,
            Condition::Positive => !is_negative(value) && value != 0,
            Condition::NotNegative => !is_negative(value),
            Condition::Defined => false,
            Condition::NotDefined => false,
            Condition::Blank => false,
            Condition::NotBlank => false,
            Condition::Same => false,
            Condition::Different => false,
        }
    }
}
