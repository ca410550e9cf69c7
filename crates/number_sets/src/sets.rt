//! Sets of numbers below a width, which share what they have with the sets that they come from.

ghost use Rattle.std.specs.Prelude.{◌≡◌};

use crate::numbers::Numbers;
use crate::trees::{Tree, both, has_in, is_within, last_in, with, without};
use std::alloc::{AllocError, Global};
use std::marker::Model;
use std::rc::Rc;

/// A set of numbers below its width.
#[derive(Drop)]
pub struct NumberSet {
    root: Rc<Tree>,
    width: usize,
}

impl Model for NumberSet {
    ghost use Rattle.std.specs.Prelude.{List, Bool};
    ghost use Rattle.number_sets.specs.Trees.{has_in, listed, IsShaped};

    ghost Value = { List Bool };

    ghost view = { λ s. listed (has_in s.root.value s.width) s.width };

    ghost invariant = { λ s. IsShaped s.root.value s.width };
}

impl Numbers for NumberSet {
    ghost use Rattle.std.specs.Prelude.{false, get_or};

    ghost list = { λ s. s };

    #[tactic(auto, using(crate::proofs::ListedLemmas::get_listed, crate::proofs::ListedLemmas::past_listed))]
    fn has(&self, k: usize) -> bool {
        k < self.width && has_in(&self.root, self.width, k)
    }

    #[tactic(auto, using(crate::proofs::ListedLemmas::short_listed, crate::proofs::ListedLemmas::length_listed))]
    fn is_short(&self) -> bool {
        self.last(6, self.width).is_none()
    }
}

impl NumberSet {
    ghost use Rattle.std.specs.Prelude.{◌≡◌, ◌<◌, ◌≤◌, ◌&&◌, ◌||◌, ◌==◌, not, nat_lt, nat_le, ℕ, false, IsTrue, IsFalse, IfOk, IfSome, OnOk, get_or, length, sum_by};
    ghost use Rattle.number_sets.specs.Bits.{counted};
    ghost use Rattle.number_sets.specs.Trees.{IsLast};

    /// The set of no number.
    #[tactic(auto, using(crate::proofs::ListedLemmas::length_listed, crate::proofs::ListedLemmas::none_listed))]
    pub fn new(alloc: Global, width: usize) -> Result<NumberSet, AllocError>
        ensures long { IfOk result (λ s. length s ≡ width) }
        ensures none { IfOk result (λ s. (k : ℕ) → get_or s k false ≡ false) }
    {
        Ok(NumberSet {
            root: Rc::new(alloc, Tree::Empty)?,
            width,
        })
    }

    /// The width.
    #[inline(always)]
    #[tactic(auto, using(crate::proofs::ListedLemmas::length_listed))]
    pub fn len(&self) -> usize
        ensures { result ≡ length self.now }
    {
        self.width
    }

    /// The same set once more.
    #[inline(always)]
    pub fn copy(&self) -> Result<NumberSet, AllocError>
        ensures { IfOk result (λ s. s ≡ self.now) }
    {
        Ok(NumberSet {
            root: self.root.clone()?,
            width: self.width,
        })
    }

    /// Puts a number in.
    #[tactic(auto, using(crate::proofs::ListedLemmas::length_listed, crate::proofs::ListedLemmas::put_listed))]
    pub fn put(&mut self, alloc: Global, k: usize) -> Result<(), AllocError>
        requires { k < length self.old }
        ensures long { OnOk result (length self.new ≡ length self.old) }
        ensures each { OnOk result ((j : ℕ) → get_or self.new j false
            ≡ (j == k || get_or self.old j false)) }
    {
        self.root = with(alloc, &self.root, self.width, k)?;
        Ok(())
    }

    /// Takes a number out.
    #[tactic(auto, using(crate::proofs::ListedLemmas::length_listed, crate::proofs::ListedLemmas::taken_listed))]
    pub fn take(&mut self, alloc: Global, k: usize) -> Result<(), AllocError>
        requires { k < length self.old }
        ensures long { OnOk result (length self.new ≡ length self.old) }
        ensures each { OnOk result ((j : ℕ) → get_or self.new j false
            ≡ (get_or self.old j false && not (j == k))) }
    {
        self.root = without(alloc, &self.root, self.width, k, k + 1)?;
        Ok(())
    }

    /// Takes the numbers from one on up to another out.
    #[tactic(auto, using(crate::proofs::ListedLemmas::length_listed, crate::proofs::ListedLemmas::cleared_listed, crate::proofs::ListedLemmas::kept_listed))]
    pub fn clear(&mut self, alloc: Global, from: usize, to: usize) -> Result<(), AllocError>
        ensures long { OnOk result (length self.new ≡ length self.old) }
        ensures each { OnOk result ((k : ℕ) → get_or self.new k false
            ≡ (get_or self.old k false && not (nat_le from k && nat_lt k to))) }
    {
        if self.last(from, to).is_none() {
            return Ok(());
        }
        self.root = without(alloc, &self.root, self.width, from, to)?;
        Ok(())
    }

    /// The greatest number from one on up to another.
    #[tactic(auto, using(crate::proofs::ListedLemmas::last_listed))]
    pub fn last(&self, from: usize, to: usize) -> Option<usize>
        ensures { IsLast (λ k. get_or self.now k false) from to result }
    {
        last_in(&self.root, self.width, from, to.min(self.width))
    }

    /// Whether the other set has all its numbers, by a look at sets of one width.
    #[tactic(auto, using(crate::proofs::ListedLemmas::within_listed))]
    pub fn is_within(&self, other: &NumberSet) -> bool
        ensures { IsTrue result → (k : ℕ) → get_or self.now k false
            ≡ (get_or self.now k false && get_or other.now k false) }
    {
        if self.width != other.width {
            return false;
        }
        is_within(&self.root, &other.root, self.width)
    }

    /// The numbers of the set that are below another width.
    pub fn resized(&self, alloc: Global, width: usize) -> Result<NumberSet, AllocError>
        ensures long { IfOk result (λ s. length s ≡ width) }
        ensures same { IfOk result (λ s. (k : ℕ) → k < width
            → get_or s k false ≡ get_or self.now k false) }
    {
        let mut out = NumberSet::new(alloc, width)?;
        for k in 0..width {
            if self.has(k) {
                out.put(alloc, k)?;
            }
        }
        Ok(out)
    }

    /// Leaves the numbers that both sets have, of which the other has the same width, and tells
    /// whether that is less.
    #[tactic(auto, using(crate::proofs::ListedLemmas::both_listed, crate::proofs::ListedLemmas::within_listed))]
    fn meet_same(&mut self, alloc: Global, other: &NumberSet) -> Result<bool, AllocError>
        requires { length self.old ≡ length other.now }
        ensures both { OnOk result ((k : ℕ) → get_or self.new k false
            ≡ (get_or self.old k false && get_or other.now k false)) }
        ensures less { IfOk result (λ changed. IsTrue changed
            → sum_by counted self.new < sum_by counted self.old) }
        ensures same { IfOk result (λ changed. IsFalse changed → self.new ≡ self.old) }
    {
        if is_within(&self.root, &other.root, self.width) {
            return Ok(false);
        }
        self.root = both(alloc, &self.root, &other.root, self.width)?;
        Ok(true)
    }

    /// Leaves the numbers that both sets have, and tells whether that is less.
    #[tactic(auto, using(crate::proofs::ListedLemmas::met_resized))]
    pub fn meet(&mut self, alloc: Global, other: &NumberSet) -> Result<bool, AllocError>
        ensures both { OnOk result ((k : ℕ) → get_or self.new k false
            ≡ (get_or self.old k false && get_or other.now k false)) }
        ensures less { IfOk result (λ changed. IsTrue changed
            → sum_by counted self.new < sum_by counted self.old) }
        ensures same { IfOk result (λ changed. IsFalse changed → self.new ≡ self.old) }
    {
        if self.len() != other.len() {
            let fitting = other.resized(alloc, self.len())?;
            return self.meet_same(alloc, &fitting);
        }
        self.meet_same(alloc, other)
    }
}
