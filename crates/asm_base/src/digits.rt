//! The values of digits (GNU as manual, "Integers").

ghost use Rattle.std.specs.Prelude.{◌≡◌, ◌≤◌};
ghost use Rattle.asm_base.specs.Digits.{digit_of};

/// The value of a digit of any radix up to 16, and 16 for any other byte.
#[tactic(auto, unfolding(crate::specs::Digits::digit_of))]
pub fn digit_of(byte: u8) -> u64
    ensures value { result ≡ digit_of byte }
    ensures within { result ≤ 16 }
{
    match byte {
        b'0'..=b'9' => u64::from(byte - b'0'),
        b'a'..=b'f' => u64::from(byte - b'a' + 10),
        b'A'..=b'F' => u64::from(byte - b'A' + 10),
        _ => 16,
    }
}
