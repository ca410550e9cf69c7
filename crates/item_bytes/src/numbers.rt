//! Numbers in groups of seven bits.

ghost use Rattle.std.specs.Prelude.{◌≡◌, ◌-◌, ◌^◌, ◌<◌, ◌≤◌, ◌++◌, ℕ, Bool, List, All, Some, length};
ghost use Rattle.item_bytes.specs.Levels.{leb128_level};
ghost use Rattle.item_bytes.specs.Leb128 as spec;

use crate::levels::leb128_level;
use arrayvec::ArrayVec;

/// The highest seven bits, which a negative number is filled up with.
const SIGN_GROUP: u64 = 0x7f << 57;

/// The groups above the lowest one, as a number. A signed number is filled up with its sign.
fn groups_above(signed: bool, value: u64) -> u64
    ensures { result ≡ spec.groups_above signed value }
{
    let above = value >> 7;
    if signed && 1 << 63 <= value {
        above + SIGN_GROUP
    } else {
        above
    }
}

/// The number in so many groups of seven bits, the lowest first (DWARF 5, section 7.6).
#[tactic(auto, using(crate::proofs::PushingLemmas::all_left, crate::proofs::PushingLemmas::more_left, crate::proofs::PushingLemmas::last_left), unfolding(crate::specs::Leb128::leb128_bytes))]
pub fn leb128(signed: bool, value: u64, groups: usize) -> ArrayVec<u8, 10>
    requires some { 1 ≤ groups }
    requires most { groups ≤ 10 }
    ensures { result.items ≡ spec.leb128_bytes signed value groups }
{
    let mut bytes = ArrayVec::new();
    let mut above = value;
    for _ in 1..groups {
        bytes.push((1 << 7) + (above % (1 << 7)) as u8);
        above = groups_above(signed, above);
    }
    bytes.push((above % (1 << 7)) as u8);
    bytes
}

/// The number in as few groups as hold it.
pub fn least_leb128(signed: bool, value: u64) -> ArrayVec<u8, 10>
    ensures { result.items ≡ spec.least_leb128 signed value }
{
    leb128(signed, value, leb128_level(signed, value) as usize + 1)
}

/// What is read from so many groups that hold a number is this number, and what stands behind them.
pub fn leb128_reads_back()
    ensures reads { (signed : Bool) (value groups : ℕ) (rest : List ℕ) → value < 2 ^ 64
        → 1 ≤ groups → leb128_level signed value ≤ groups - 1
        → spec.read_leb128 signed (spec.leb128_bytes signed value groups ++ rest)
        ≡ Some (value, rest) }
    ensures count { (signed : Bool) (value groups : ℕ)
        → length (spec.leb128_bytes signed value groups) ≡ groups }
    ensures bytes { (signed : Bool) (value groups : ℕ)
        → All (λ byte. byte < 2 ^ 8) (spec.leb128_bytes signed value groups) }
{}
