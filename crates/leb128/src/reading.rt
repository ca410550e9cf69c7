//! LEB128 numbers, read from the last byte back (DWARF 5, section 7.6).

ghost use Rattle.std.specs.Prelude.{◌≡◌, ◌+◌, ◌≤◌, ◌<◌, ℕ, IfSome, length, slice_index};
ghost use Rattle.std.specs.Option.{option_map};
ghost use Rattle.leb128.specs.Reading.{sleb, uleb, value_above};

/// The index of the first byte without bit 7, or the length where there is none.
fn last_digit(bytes: &[u8]) -> usize
    ensures bound { result ≤ length bytes.now }
    ensures before { (j : ℕ) → j < result → 128 ≤ slice_index bytes.now j }
    ensures last { result < length bytes.now → slice_index bytes.now result < 128 }
{
    for i in 0..bytes.len() {
        if bytes[i] < 128 {
            return i;
        }
    }
    bytes.len()
}

/// The unsigned number below 2^64 that the bytes begin with, and what follows it.
#[tactic(auto, using(crate::proofs::LongLemmas::ends, crate::proofs::LongLemmas::goes_on, crate::proofs::LongLemmas::gives_up, crate::proofs::LongLemmas::never_ends))]
pub fn read_unsigned(bytes: &[u8]) -> Option<(u64, &[u8])>
    ensures value { option_map (λ r. (r.0, r.1.now)) result ≡ uleb bytes.now }
    ensures shorter { IfSome result (λ r. length r.1.now < length bytes.now) }
{
    let end = last_digit(bytes);
    if end == bytes.len() {
        return None;
    }
    let mut value = bytes[end] as u64;
    for done in 0..end {
        if value >= 1 << 57 {
            return None;
        }
        value = bytes[end - 1 - done] as u64 - 128 + 128 * value;
    }
    Some((value, &bytes[end + 1..]))
}

/// The number of a byte with bit 7 before the number above it.
fn with_byte(byte: u8, above: i64) -> Option<i64>
    requires { 128 ≤ byte }
    ensures { result ≡ value_above byte above }
{
    if -(1 << 56) <= above && above < 1 << 56 {
        Some(byte as i64 - 128 + 128 * above)
    } else {
        None
    }
}

/// The signed number within -2^63 to 2^63 - 1 that the bytes begin with, and what follows it.
#[tactic(auto, using(crate::proofs::SignedLongLemmas::ends_up, crate::proofs::SignedLongLemmas::ends_down, crate::proofs::SignedLongLemmas::goes_on, crate::proofs::SignedLongLemmas::gives_up, crate::proofs::SignedLongLemmas::never_ends))]
pub fn read_signed(bytes: &[u8]) -> Option<(i64, &[u8])>
    ensures value { option_map (λ r. (r.0, r.1.now)) result ≡ sleb bytes.now }
    ensures shorter { IfSome result (λ r. length r.1.now < length bytes.now) }
{
    let end = last_digit(bytes);
    if end == bytes.len() {
        return None;
    }
    let last = bytes[end] as i64;
    let mut value = if last < 64 { last } else { last - 128 };
    for done in 0..end {
        value = with_byte(bytes[end - 1 - done], value)?;
    }
    Some((value, &bytes[end + 1..]))
}
