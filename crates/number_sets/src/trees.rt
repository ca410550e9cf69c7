//! Trees of numbers below a width, which share their parts.

ghost use Rattle.std.specs.Prelude.{◌≡◌, ◌<◌, ◌≤◌, ◌&&◌, ◌||◌, ◌==◌, ◌-◌, ◌/◌, not, nat_lt, nat_le, ℕ, false, true, IfOk, IsTrue, IsFalse, get_or};
ghost use Rattle.number_sets.specs.Trees.{has_in, in_halves, IsShaped, IsLast};

use crate::numbers::Numbers;
use crate::words::Word;
use std::alloc::{AllocError, Global};
use std::rc::Rc;

/// The numbers below a width, by halves.
#[derive(Drop)]
pub(crate) enum Tree {
    /// None.
    Empty,
    /// Those of a word, where the width is at most 64.
    Leaf(Word),
    /// Those below half the width, and the others less that half.
    Fork(Rc<Tree>, Rc<Tree>),
}

/// Whether a tree has none, by a look at it.
#[inline(always)]
fn is_empty(tree: &Tree) -> bool
    ensures shape { IsTrue result → (width : ℕ) → IsShaped tree.now width }
    ensures none { IsTrue result → (width k : ℕ) → has_in tree.now width k ≡ false }
{
    match tree {
        Tree::Empty => true,
        Tree::Leaf(_) | Tree::Fork(_, _) => false,
    }
}

/// The numbers of a tree whose width is at most 64.
#[inline(always)]
fn word_of(tree: &Tree) -> Word
    ensures { (width k : ℕ) → IsShaped tree.now width → width ≤ 64
        → get_or result k false ≡ has_in tree.now width k }
{
    match tree {
        Tree::Leaf(word) => word.again(),
        Tree::Empty | Tree::Fork(_, _) => Word::none(),
    }
}

/// The part for the numbers below half the width, where that is more than 64.
#[inline(always)]
fn low_of(tree: &Rc<Tree>) -> &Rc<Tree>
    ensures shape { (width : ℕ) → IsShaped tree.now.value width → 64 < width
        → IsShaped result.now.value (width / 2) }
    ensures each { (width k : ℕ) → IsShaped tree.now.value width → 64 < width → k < width / 2
        → has_in tree.now.value width k ≡ has_in result.now.value (width / 2) k }
{
    match &**tree {
        Tree::Fork(low, _) => low,
        Tree::Empty | Tree::Leaf(_) => tree,
    }
}

/// The part for the other numbers.
#[inline(always)]
fn high_of(tree: &Rc<Tree>) -> &Rc<Tree>
    ensures shape { (width : ℕ) → IsShaped tree.now.value width → 64 < width
        → IsShaped result.now.value (width - width / 2) }
    ensures each { (width k : ℕ) → IsShaped tree.now.value width → 64 < width → width / 2 ≤ k
        → has_in tree.now.value width k
        ≡ has_in result.now.value (width - width / 2) (k - width / 2) }
{
    match &**tree {
        Tree::Fork(_, high) => high,
        Tree::Empty | Tree::Leaf(_) => tree,
    }
}

/// The numbers of a word.
fn leaf(alloc: Global, word: Word) -> Result<Rc<Tree>, AllocError>
    ensures shape { IfOk result (λ t. (width : ℕ) → width ≤ 64
        → ((k : ℕ) → width ≤ k → get_or word k false ≡ false) → IsShaped t.value width) }
    ensures each { IfOk result (λ t. (width k : ℕ)
        → has_in t.value width k ≡ get_or word k false) }
{
    if word.is_none() {
        return Ok(Rc::new(alloc, Tree::Empty)?);
    }
    Ok(Rc::new(alloc, Tree::Leaf(word))?)
}

/// Two halves.
fn join(alloc: Global, low: Rc<Tree>, high: Rc<Tree>) -> Result<Rc<Tree>, AllocError>
    ensures shape { IfOk result (λ t. (width : ℕ) → 64 < width → IsShaped low.value (width / 2)
        → IsShaped high.value (width - width / 2) → IsShaped t.value width) }
    ensures each { IfOk result (λ t. (width k : ℕ) → has_in t.value width k
        ≡ in_halves (has_in low.value (width / 2)) (has_in high.value (width - width / 2))
        (width / 2) k) }
{
    if is_empty(&low) && is_empty(&high) {
        return Ok(low);
    }
    Ok(Rc::new(alloc, Tree::Fork(low, high))?)
}

/// Whether a tree has a number.
pub(crate) fn has_in(tree: &Tree, width: usize, k: usize) -> bool
    ensures { result ≡ has_in tree.now width k }
{
    match tree {
        Tree::Empty => false,
        Tree::Leaf(word) => word.has(k),
        Tree::Fork(low, high) => {
            let half = width / 2;
            if k < half {
                has_in(low, half, k)
            } else {
                has_in(high, width - half, k - half)
            }
        }
    }
}

/// The same numbers and one more.
#[tactic(auto, using(crate::proofs::TreeLemmas::leaf_with))]
pub(crate) fn with(
    alloc: Global,
    tree: &Rc<Tree>,
    width: usize,
    k: usize,
) -> Result<Rc<Tree>, AllocError>
    requires shape { IsShaped tree.now.value width }
    requires within { k < width }
    ensures shape { IfOk result (λ t. IsShaped t.value width) }
    ensures each { IfOk result (λ t. (j : ℕ) → has_in t.value width j
        ≡ (j == k || has_in tree.now.value width j)) }
{
    if width <= 64 {
        return leaf(alloc, word_of(tree).with(k, true));
    }
    let half = width / 2;
    if k < half {
        let low = with(alloc, low_of(tree), half, k)?;
        join(alloc, low, high_of(tree).clone()?)
    } else {
        let high = with(alloc, high_of(tree), width - half, k - half)?;
        join(alloc, low_of(tree).clone()?, high)
    }
}

/// The same numbers without those from one on up to another.
#[tactic(auto, using(crate::proofs::TreeLemmas::leaf_without))]
pub(crate) fn without(
    alloc: Global,
    tree: &Rc<Tree>,
    width: usize,
    from: usize,
    to: usize,
) -> Result<Rc<Tree>, AllocError>
    requires shape { IsShaped tree.now.value width }
    ensures shape { IfOk result (λ t. IsShaped t.value width) }
    ensures each { IfOk result (λ t. (j : ℕ) → has_in t.value width j
        ≡ (has_in tree.now.value width j && not (nat_le from j && nat_lt j to))) }
{
    if from >= to || is_empty(tree) {
        return tree.clone();
    }
    if width <= 64 {
        return leaf(alloc, word_of(tree).without_range(from, to));
    }
    let half = width / 2;
    let low = without(alloc, low_of(tree), half, from, to.min(half))?;
    let high = without(
        alloc,
        high_of(tree),
        width - half,
        from.saturating_sub(half),
        to.saturating_sub(half),
    )?;
    join(alloc, low, high)
}

/// The greatest number of a tree from one on up to another.
pub(crate) fn last_in(tree: &Rc<Tree>, width: usize, from: usize, to: usize) -> Option<usize>
    requires { IsShaped tree.now.value width }
    ensures { IsLast (has_in tree.now.value width) from to result }
{
    if from >= to || is_empty(tree) {
        return None;
    }
    if width <= 64 {
        return word_of(tree).last(from, to);
    }
    let half = width / 2;
    match last_in(
        high_of(tree),
        width - half,
        from.saturating_sub(half),
        to.saturating_sub(half),
    ) {
        Some(k) => Some(k + half),
        None => last_in(low_of(tree), half, from, to.min(half)),
    }
}

/// The numbers that two trees have both.
#[tactic(auto, using(crate::proofs::TreeLemmas::leaf_both))]
pub(crate) fn both(
    alloc: Global,
    one: &Rc<Tree>,
    other: &Rc<Tree>,
    width: usize,
) -> Result<Rc<Tree>, AllocError>
    requires one { IsShaped one.now.value width }
    requires other { IsShaped other.now.value width }
    ensures shape { IfOk result (λ t. IsShaped t.value width) }
    ensures each { IfOk result (λ t. (k : ℕ) → has_in t.value width k
        ≡ (has_in one.now.value width k && has_in other.now.value width k)) }
{
    if is_empty(one) {
        return one.clone();
    }
    if is_empty(other) {
        return other.clone();
    }
    if width <= 64 {
        return leaf(alloc, word_of(one).both(&word_of(other)));
    }
    let half = width / 2;
    let low = both(alloc, low_of(one), low_of(other), half)?;
    let high = both(alloc, high_of(one), high_of(other), width - half)?;
    join(alloc, low, high)
}

/// Whether the other tree has all numbers of a tree.
pub(crate) fn is_within(one: &Rc<Tree>, other: &Rc<Tree>, width: usize) -> bool
    requires one { IsShaped one.now.value width }
    requires other { IsShaped other.now.value width }
    ensures within { IsTrue result → (k : ℕ) → has_in one.now.value width k ≡ true
        → has_in other.now.value width k ≡ true }
    ensures beyond { IsFalse result → (k : ℕ) × (k < width)
        × (has_in one.now.value width k ≡ true) × (has_in other.now.value width k ≡ false) }
{
    if is_empty(one) {
        return true;
    }
    if width <= 64 {
        return word_of(one).is_within(&word_of(other));
    }
    let half = width / 2;
    is_within(low_of(one), low_of(other), half)
        && is_within(high_of(one), high_of(other), width - half)
}
