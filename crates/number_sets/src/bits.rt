//! The bits of words.

ghost use Rattle.std.specs.Prelude.{◌≡◌, ◌≢◌, ◌<◌, ◌≤◌, ◌^◌, ℕ, nat_lt};
ghost use Rattle.number_sets.specs.Bits.{has_bit};

/// Whether a word has a bit.
#[inline(always)]
pub(crate) fn has_bit(word: u64, k: usize) -> bool
    requires { k < 64 }
    ensures { result ≡ has_bit word k }
{
    (word >> k) % 2 == 1
}

/// A word with a bit as it is told, and its other bits.
#[inline(always)]
#[tactic(auto, using(crate::proofs::WordLemmas::put_here, crate::proofs::WordLemmas::put_other, crate::proofs::WordLemmas::cleared_here, crate::proofs::WordLemmas::cleared_other))]
pub(crate) fn with_bit(word: u64, k: usize, bit: bool) -> u64
    requires { k < 64 }
    ensures here { has_bit result k ≡ bit }
    ensures others { (j : ℕ) → j < 64 → j ≢ k → has_bit result j ≡ has_bit word j }
{
    if bit {
        word | (1u64 << k)
    } else {
        word & !(1u64 << k)
    }
}

/// The bits below one of a word, or all 64.
#[inline(always)]
#[tactic(auto, using(crate::proofs::BitLemmas::ones_short, crate::proofs::BitLemmas::ones_long))]
pub(crate) fn ones_below(count: usize) -> u64
    ensures { (k : ℕ) → k < 64 → has_bit result k ≡ nat_lt k count }
{
    if count < 64 {
        (1u64 << count) - 1
    } else {
        u64::MAX
    }
}
