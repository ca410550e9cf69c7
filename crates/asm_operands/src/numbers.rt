//! The numbers that single tokens are.

ghost use Rattle.std.specs.Prelude.{◌≡◌, ◌+◌, ◌*◌, ◌<◌, ◌≤◌, ◌^◌, ◌⊎◌, [], ◌∷◌, length, IsTrue};
ghost use Rattle.asm_base.specs.Digits.{digit_of};
ghost use Rattle.asm_base.specs.Tokens.{spelled};
ghost use Rattle.asm_operands.specs.Numbers.{FindsDigit, FindsNumeral, FindsNumber, FindsLeaf};

use asm_base::{Token, TokenKind, digit_of};
use expr_texts::{character_code, spelled_number};

/// The value of a digit, if the radix has it.
#[inline(always)]
fn digit_below(radix: u64, byte: u8) -> Option<u64>
    ensures { FindsDigit radix byte result }
{
    let digit = digit_of(byte);
    if digit < radix { Some(digit) } else { None }
}

/// The number of digits so few that it fits.
fn fitting_number(radix: u64, digits: &[u8]) -> Option<u64>
    requires digits { 0 < length digits.now }
    requires within { radix ^ length digits.now ≤ 2 ^ 64 }
    ensures { FindsNumeral radix digits.now result }
{
    let mut number: u64 = 0;
    for byte in digits {
        let digit = digit_below(radix, *byte)?;
        number = number * radix + digit;
    }
    Some(number)
}

/// The number that a token of digits of any form is. What spells a number is no label.
#[inline(never)]
fn any_number(digits: &[u8]) -> Option<u64>
    ensures { FindsNumber digits.now result }
{
    spelled_number(digits).ok()
}

/// The number that a token of many digits is. Those that are decimal with no zero in front, or
/// hexadecimal, are read in one pass.
#[inline(never)]
fn long_number(digits: &[u8]) -> Option<u64>
    ensures { FindsNumber digits.now result }
{
    let count = digits.len();
    if count < 3 || count > 18 {
        return any_number(digits);
    }
    if digits[0] != b'0' {
        return fitting_number(10, digits);
    }
    if digits[1] == b'x' {
        return fitting_number(16, &digits[2..]);
    }
    any_number(digits)
}

/// The value of a hexadecimal digit that is a capital letter.
#[inline(never)]
fn capital_digit(byte: u8) -> Option<u64>
    ensures { FindsDigit 16 byte result }
{
    digit_below(16, byte)
}

/// The value of a hexadecimal digit.
#[inline(always)]
#[tactic(auto, unfolding(asm_base::specs::Digits::digit_of))]
fn hexadecimal_digit(byte: u8) -> Option<u64>
    ensures { FindsDigit 16 byte result }
{
    let digit = u64::from(byte).wrapping_sub(48);
    if digit < 10 {
        return Some(digit);
    }
    let letter = u64::from(byte).wrapping_sub(97);
    if letter < 6 {
        Some(letter + 10)
    } else {
        capital_digit(byte)
    }
}

/// The number of two hexadecimal digits.
#[inline(always)]
fn two_hexadecimal_digits(first: u8, second: u8) -> Option<u64>
    ensures { FindsNumeral 16 (first ∷ second ∷ []) result }
{
    let sixteens = hexadecimal_digit(first)?;
    let ones = hexadecimal_digit(second)?;
    Some(sixteens * 16 + ones)
}

/// The value of a byte as a decimal digit, which is 10 or more where it is none.
#[inline(always)]
#[tactic(auto, unfolding(asm_base::specs::Digits::digit_of))]
fn decimal_value(byte: u8) -> u64
    ensures { result < 10 → result ≡ digit_of byte }
{
    u64::from(byte).wrapping_sub(48)
}

/// Whether these are decimal digits, the first of so many by its byte: a zero there, with others
/// behind it, means octal digits.
#[inline(always)]
fn are_decimal(length: usize, byte: u8, first: u64, middle: u64, last: u64) -> bool
    ensures digits { IsTrue result → (first < 10) × (middle < 10) × (last < 10) }
    ensures plain { IsTrue result → (byte ≡ 48 → ⊥) ⊎ (length ≡ 1) }
{
    (first < 10) & (middle < 10) & (last < 10) & ((byte != b'0') | (length == 1))
}

/// The number of one to three decimal digits, by the first, the middle and the last.
#[inline(always)]
fn decimal_number(length: usize, first: u64, middle: u64, last: u64) -> u64
    requires first { first < 10 }
    requires middle { middle < 10 }
    requires last { last < 10 }
    ensures one { length ≡ 1 → result ≡ first }
    ensures two { length ≡ 2 → result ≡ first * 10 + last }
    ensures three { length ≡ 3 → result ≡ (first * 10 + middle) * 10 + last }
{
    let front = if length == 3 {
        first * 10 + middle
    } else {
        first
    };
    if length == 1 {
        front
    } else {
        front * 10 + last
    }
}

/// The number that a token of one to three digits is. Most are decimal. How many they are cannot
/// be guessed: nothing branches on it.
#[inline(always)]
fn short_number(digits: &[u8]) -> Option<u64>
    requires some { 1 ≤ length digits.now }
    requires few { length digits.now ≤ 3 }
    ensures { FindsNumber digits.now result }
{
    let length = digits.len();
    let first = decimal_value(digits[0]);
    let middle = decimal_value(digits[length / 2]);
    let last = decimal_value(digits[length - 1]);
    if are_decimal(length, digits[0], first, middle, last) {
        Some(decimal_number(length, first, middle, last))
    } else {
        any_number(digits)
    }
}

/// The number that a token of digits is. The shortest are read with no loop.
#[inline(always)]
fn number(digits: &[u8]) -> Option<u64>
    ensures { FindsNumber digits.now result }
{
    if digits.len().wrapping_sub(1) < 3 {
        return short_number(digits);
    }
    match digits {
        [zero, mark, first, second] if *zero == b'0' && *mark == b'x' => {
            two_hexadecimal_digits(*first, *second)
        }
        _ => long_number(digits),
    }
}

/// The number that a token of another class is.
#[inline(never)]
#[tactic(auto, unfolding(expr_texts::specs::Leaves::leaf_of))]
fn other_leaf(token: &Token) -> Option<u64>
    ensures { FindsLeaf (spelled token.now) result }
{
    match token.kind {
        TokenKind::Character => character_code(token.bytes).ok(),
        _ => None,
    }
}

/// The number that a token is.
#[inline(always)]
#[tactic(auto, unfolding(expr_texts::specs::Leaves::leaf_of))]
pub(crate) fn leaf(token: &Token) -> Option<u64>
    ensures { FindsLeaf (spelled token.now) result }
{
    if token.kind == TokenKind::Digits {
        number(token.bytes)
    } else {
        other_leaf(token)
    }
}
