//! The number that a token of digits spells (GNU as manual, "Integers").

ghost use Rattle.std.specs.Prelude.{◌≡◌, ◌+◌, ◌*◌, ◌<◌, ◌≤◌, ◌^◌, MatchOption};
ghost use Rattle.std.specs.List.{list_all};
ghost use Rattle.asm_base.specs.Digits.{digit_of, number_after, is_digit_of};
ghost use Rattle.expr_texts.specs.Numbers.{numeral, spelled_number};

use asm_base::digit_of;
use asm_expr::ExprCause;

/// Whether the radix has all these digits.
pub fn all_digits(radix: u64, digits: &[u8]) -> bool
    ensures { result ≡ list_all (is_digit_of radix) digits.now }
{
    digits.iter().all(|digit| digit_of(*digit) < radix)
}

/// The number with one digit more behind it, or none where it is too wide.
fn with_digit(radix: u64, number: u64, digit: u8) -> Option<u64>
    ensures { let more = number * radix + digit_of digit in
        MatchOption result (2 ^ 64 ≤ more) (λ n. n ≡ more) }
{
    number.checked_mul(radix)?.checked_add(digit_of(digit))
}

/// The number of the digits, or none where it is too wide.
#[tactic(auto, using(crate::proofs::NumberLemmas::number_step, crate::proofs::NumberLemmas::number_too_wide, crate::proofs::NumberLemmas::number_done))]
fn number(radix: u64, digits: &[u8]) -> Option<u64>
    requires { 0 < radix }
    ensures { let all = number_after radix 0 digits.now in
        MatchOption result (2 ^ 64 ≤ all) (λ n. n ≡ all) }
{
    let mut number: u64 = 0;
    for digit in digits {
        match with_digit(radix, number, *digit) {
            Some(more) => number = more,
            None => return None,
        }
    }
    Some(number)
}

/// A number in this radix.
#[tactic(auto, unfolding(crate::specs::Numbers::numeral))]
pub(crate) fn numeral(radix: u64, digits: &[u8]) -> Result<u64, ExprCause>
    requires { 0 < radix }
    ensures { result ≡ numeral radix digits.now }
{
    if digits.is_empty() || !all_digits(radix, digits) {
        return Err(ExprCause::BadExpression);
    }
    number(radix, digits).ok_or(ExprCause::NumberTooWide)
}

/// The number of decimal digits, leading zeros among them. `BadExpression` comes where there are
/// none or another byte is among them, and `NumberTooWide` where the number is above 2^64 - 1.
pub fn decimal_number(digits: &[u8]) -> Result<u64, ExprCause>
    ensures { result ≡ numeral 10 digits.now }
{
    numeral(10, digits)
}

/// The number that a token of digits spells.
#[tactic(auto, unfolding(crate::specs::Numbers::spelled_number))]
pub fn spelled_number(digits: &[u8]) -> Result<u64, ExprCause>
    ensures { result ≡ spelled_number digits.now }
{
    match digits {
        [first, second, rest @ ..] => {
            if *first != b'0' {
                numeral(10, digits)
            } else if *second == b'x' || *second == b'X' {
                numeral(16, rest)
            } else if *second == b'b' || *second == b'B' {
                numeral(2, rest)
            } else {
                numeral(8, &digits[1..])
            }
        }
        _ => numeral(10, digits),
    }
}
