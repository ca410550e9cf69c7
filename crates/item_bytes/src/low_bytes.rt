//! The low bytes of a number.

ghost use Rattle.std.specs.Prelude.{◌≡◌, ◌≤◌, ◌+◌, ◌++◌, ◌%◌, ◌^◌};
ghost use Rattle.std.specs.Int.{to_le_bytes, w16, w32};
ghost use Rattle.arrayvec.specs.ArrayVec.{array_vec_len};

use arrayvec::ArrayVec;

/// The lowest byte.
pub(crate) fn low_byte(number: u64) -> u8
    ensures { result ≡ number % 2 ^ 8 }
{
    (number % (1 << 8)) as u8
}

/// Appends the low two bytes, the lowest first.
pub(crate) fn push_two<const N: usize>(bytes: &mut ArrayVec<u8, N>, number: u64)
    requires { array_vec_len bytes.old + 2 ≤ N }
    ensures { bytes.new.items ≡ bytes.old.items ++ to_le_bytes w16 (number % 2 ^ 16) }
{
    let low = ((number % (1 << 16)) as u16).to_le_bytes();
    bytes.push(low[0]);
    bytes.push(low[1]);
}

/// Appends the low four bytes, the lowest first.
pub(crate) fn push_four<const N: usize>(bytes: &mut ArrayVec<u8, N>, number: u64)
    requires { array_vec_len bytes.old + 4 ≤ N }
    ensures { bytes.new.items ≡ bytes.old.items ++ to_le_bytes w32 (number % 2 ^ 32) }
{
    let low = ((number % (1 << 32)) as u32).to_le_bytes();
    bytes.push(low[0]);
    bytes.push(low[1]);
    bytes.push(low[2]);
    bytes.push(low[3]);
}
