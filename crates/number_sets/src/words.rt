//! Sets of numbers below 64, as the bits of a word.

ghost use Rattle.std.specs.Prelude.{◌≡◌};

use crate::bits::{has_bit, ones_below, with_bit};
use crate::numbers::Numbers;
use std::marker::Model;

/// A set of numbers below 64.
#[derive(Drop)]
pub struct Word {
    bits: u64,
}

impl Model for Word {
    ghost use Rattle.std.specs.Prelude.{List, Bool};
    ghost use Rattle.number_sets.specs.Bits.{low_bits};

    ghost Value = { List Bool };

    ghost view = { λ w. low_bits w.bits 64 };
}

impl Numbers for Word {
    ghost use Rattle.std.specs.Prelude.{false, get_or};

    ghost list = { λ w. w };

    #[inline(always)]
    #[tactic(auto, using(crate::proofs::BitLemmas::in_word_alone, crate::proofs::BitLemmas::behind_word_alone))]
    fn has(&self, k: usize) -> bool {
        if k < 64 { has_bit(self.bits, k) } else { false }
    }

    #[inline(always)]
    #[tactic(auto, using(crate::proofs::BitLemmas::short_word))]
    fn is_short(&self) -> bool {
        self.bits >> 6 == 0
    }
}

impl Word {
    ghost use Rattle.std.specs.Prelude.{◌≡◌, ◌≢◌, ◌+◌, ◌<◌, ◌≤◌, ◌&&◌, not, nat_lt, nat_le, ℕ, true, false, IsTrue, IsFalse, get_or, sum_by};
    ghost use Rattle.number_sets.specs.Bits.{has_bit};
    ghost use Rattle.number_sets.specs.Bits.{counted};
    ghost use Rattle.number_sets.specs.Trees.{IsLast};

    /// The first six numbers.
    #[inline(always)]
    #[tactic(auto, using(crate::proofs::BitLemmas::six_low, crate::proofs::BitLemmas::six_high))]
    pub fn six() -> Word
        ensures low { (k : ℕ) → k < 6 → get_or result k false ≡ true }
        ensures high { (k : ℕ) → 6 ≤ k → get_or result k false ≡ false }
    {
        Word { bits: 63 }
    }

    /// No number.
    #[inline(always)]
    #[tactic(auto, using(crate::proofs::BitLemmas::none_set))]
    pub fn none() -> Word
        ensures { (k : ℕ) → get_or result k false ≡ false }
    {
        Word { bits: 0 }
    }

    /// Whether it has no number.
    #[inline(always)]
    #[tactic(auto, using(crate::proofs::BitLemmas::zero_set))]
    pub fn is_none(&self) -> bool
        ensures { IsTrue result → (k : ℕ) → get_or self.now k false ≡ false }
    {
        self.bits == 0
    }

    /// The same once more.
    #[inline(always)]
    pub fn again(&self) -> Word
        ensures { result ≡ self.now }
    {
        Word { bits: self.bits }
    }

    /// Those of its numbers that are below another.
    #[inline(always)]
    #[tactic(auto, using(crate::proofs::BitLemmas::first_low, crate::proofs::BitLemmas::first_high))]
    pub fn first(&self, count: usize) -> Word
        requires { count < 64 }
        ensures low { (k : ℕ) → k < count → get_or result k false ≡ get_or self.now k false }
        ensures high { (k : ℕ) → count ≤ k → get_or result k false ≡ false }
    {
        Word {
            bits: self.bits & ((1u64 << count) - 1),
        }
    }

    /// Its numbers, but for those that are set in a mask, whose second bit is for 0.
    #[inline(always)]
    #[tactic(auto, using(crate::proofs::BitLemmas::masked))]
    pub fn without(&self, mask: u8) -> Word
        ensures { (k : ℕ) → k < 64 → get_or result k false
            ≡ (get_or self.now k false && not (has_bit mask (k + 1))) }
    {
        Word {
            bits: self.bits & !u64::from(mask >> 1),
        }
    }

    /// The same with a number, or without it.
    #[inline(always)]
    #[tactic(auto, using(crate::proofs::BitLemmas::set_here, crate::proofs::BitLemmas::set_other))]
    pub fn with(&self, k: usize, bit: bool) -> Word
        requires { k < 64 }
        ensures here { get_or result k false ≡ bit }
        ensures others { (j : ℕ) → j ≢ k → get_or result j false ≡ get_or self.now j false }
    {
        Word {
            bits: with_bit(self.bits, k, bit),
        }
    }

    /// The same, with the first six numbers of another in place of its own.
    #[inline(always)]
    #[tactic(auto, using(crate::proofs::BitLemmas::joined_low, crate::proofs::BitLemmas::joined_high))]
    pub fn with_first(&self, other: &Word) -> Word
        ensures low { (k : ℕ) → k < 6 → get_or result k false ≡ get_or other.now k false }
        ensures high { (k : ℕ) → 6 ≤ k → get_or result k false ≡ get_or self.now k false }
    {
        Word {
            bits: (self.bits & (u64::MAX - 63)) | (other.bits & 63),
        }
    }

    /// The same without the numbers from one on up to another.
    #[inline(always)]
    #[tactic(auto, using(crate::proofs::BitLemmas::range_out))]
    pub fn without_range(&self, from: usize, to: usize) -> Word
        ensures { (k : ℕ) → get_or result k false
            ≡ (get_or self.now k false && not (nat_le from k && nat_lt k to)) }
    {
        Word {
            bits: self.bits & (ones_below(from) | !ones_below(to)),
        }
    }

    /// Its greatest number from one on up to another.
    #[tactic(auto, using(crate::proofs::BitLemmas::top_small, crate::proofs::BitLemmas::last_none, crate::proofs::BitLemmas::last_some))]
    pub fn last(&self, from: usize, to: usize) -> Option<usize>
        ensures { IsLast (λ k. get_or self.now k false) from to result }
    {
        let kept = self.bits & ones_below(to) & !ones_below(from);
        if kept == 0 {
            return None;
        }
        Some(63 - kept.leading_zeros() as usize)
    }

    /// The numbers that both have.
    #[inline(always)]
    #[tactic(auto, using(crate::proofs::BitLemmas::met_word))]
    pub fn both(&self, other: &Word) -> Word
        ensures { (k : ℕ) → get_or result k false
            ≡ (get_or self.now k false && get_or other.now k false) }
    {
        Word {
            bits: self.bits & other.bits,
        }
    }

    /// Whether another has all its numbers.
    #[inline(always)]
    #[tactic(auto, using(crate::proofs::BitLemmas::within_word_alone, crate::proofs::BitLemmas::beyond_word))]
    pub fn is_within(&self, other: &Word) -> bool
        ensures within { IsTrue result → (k : ℕ) → get_or self.now k false
            ≡ (get_or self.now k false && get_or other.now k false) }
        ensures beyond { IsFalse result → (k : ℕ) × (get_or self.now k false ≡ true)
            × (get_or other.now k false ≡ false) }
    {
        self.bits & other.bits == self.bits
    }

    /// Leaves the numbers that both have, and tells whether that is less.
    #[inline(always)]
    #[tactic(auto, using(crate::proofs::BitLemmas::met_word, crate::proofs::BitLemmas::met_less))]
    pub fn meet(&mut self, other: &Word) -> bool
        ensures both { (k : ℕ) → get_or self.new k false
            ≡ (get_or self.old k false && get_or other.now k false) }
        ensures less { IsTrue result → sum_by counted self.new < sum_by counted self.old }
        ensures same { IsFalse result → self.new ≡ self.old }
    {
        let left = self.bits & other.bits;
        if left == self.bits {
            return false;
        }
        self.bits = left;
        true
    }

    /// Whether both have the same numbers.
    #[inline(always)]
    pub fn is_same(&self, other: &Word) -> bool
        ensures { IsTrue result → (k : ℕ) → get_or self.now k false ≡ get_or other.now k false }
    {
        self.bits == other.bits
    }
}
