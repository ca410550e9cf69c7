//! The operands of instructions.

ghost use Rattle.std.specs.Prelude.{◌≡◌, ◌<◌, IfSome, length};
ghost use Rattle.std.specs.Option.{option_map};
ghost use Rattle.cfi_rows.specs.Instructions.{register_of, factored_of, factored_signed_of, plain_of, byte_of, two_bytes_of, four_bytes_of};

use leb128::{read_signed, read_unsigned};

/// A register of 0 to 63.
pub fn register(bytes: &[u8]) -> Option<(u8, &[u8])>
    ensures value { option_map (λ r. (r.0, r.1.now)) result ≡ register_of bytes.now }
    ensures shorter { IfSome result (λ r. length r.1.now < length bytes.now) }
{
    let (number, rest) = read_unsigned(bytes)?;
    if number < 64 {
        Some((number as u8, rest))
    } else {
        None
    }
}

/// An offset that is not factored.
pub fn plain(bytes: &[u8]) -> Option<(i64, &[u8])>
    ensures value { option_map (λ r. (r.0, r.1.now)) result ≡ plain_of bytes.now }
    ensures shorter { IfSome result (λ r. length r.1.now < length bytes.now) }
{
    let (number, rest) = read_unsigned(bytes)?;
    if number < 1 << 63 {
        Some((number as i64, rest))
    } else {
        None
    }
}

/// -8 times an unsigned number.
pub fn factored(bytes: &[u8]) -> Option<(i64, &[u8])>
    ensures value { option_map (λ r. (r.0, r.1.now)) result ≡ factored_of bytes.now }
    ensures shorter { IfSome result (λ r. length r.1.now < length bytes.now) }
{
    let (number, rest) = read_unsigned(bytes)?;
    if number <= 1 << 60 {
        Some((number as i64 * -8, rest))
    } else {
        None
    }
}

/// -8 times a signed number.
pub fn factored_signed(bytes: &[u8]) -> Option<(i64, &[u8])>
    ensures value { option_map (λ r. (r.0, r.1.now)) result ≡ factored_signed_of bytes.now }
    ensures shorter { IfSome result (λ r. length r.1.now < length bytes.now) }
{
    let (number, rest) = read_signed(bytes)?;
    if -(1 << 60) < number && number <= 1 << 60 {
        Some((number * -8, rest))
    } else {
        None
    }
}

/// A number in one byte.
pub fn byte(bytes: &[u8]) -> Option<(u32, &[u8])>
    ensures value { option_map (λ r. (r.0, r.1.now)) result ≡ byte_of bytes.now }
    ensures shorter { IfSome result (λ r. length r.1.now < length bytes.now) }
{
    match bytes {
        [a, rest @ ..] => Some((*a as u32, rest)),
        _ => None,
    }
}

/// A number in two bytes, the lowest first.
pub fn two_bytes(bytes: &[u8]) -> Option<(u32, &[u8])>
    ensures value { option_map (λ r. (r.0, r.1.now)) result ≡ two_bytes_of bytes.now }
    ensures shorter { IfSome result (λ r. length r.1.now < length bytes.now) }
{
    match bytes {
        [a, b, rest @ ..] => Some((*a as u32 + *b as u32 * 256, rest)),
        _ => None,
    }
}

/// A number in four bytes, the lowest first.
pub fn four_bytes(bytes: &[u8]) -> Option<(u32, &[u8])>
    ensures value { option_map (λ r. (r.0, r.1.now)) result ≡ four_bytes_of bytes.now }
    ensures shorter { IfSome result (λ r. length r.1.now < length bytes.now) }
{
    match bytes {
        [a, b, c, d, rest @ ..] => {
            Some((
                *a as u32 + *b as u32 * 256 + *c as u32 * 65536 + *d as u32 * 16777216,
                rest,
            ))
        }
        _ => None,
    }
}
