//! A table of numbers modulo 2^64. What is added to a range is kept once for each block of entries that the range covers.

ghost use Rattle.std.specs.Prelude.{◌≡◌, ◌*◌, ◌<◌, ◌≤◌, ◌^◌, IfOk, length, replicate, slice_index, slice_set};
ghost use Rattle.range_table.specs.Moving.{IsMoved};

use crate::adding::add_each;
use std::alloc::{AllocError, Global};
use std::marker::Model;

/// How many entries stand in a block.
const BLOCK: usize = 256;

/// A table of numbers modulo 2^64.
#[derive(Drop)]
pub struct RangeTable {
    /// Each number less what was added to its whole block.
    entries: Vec<u64>,
    /// What was added to each whole block.
    blocks: Vec<u64>,
}

impl Model for RangeTable {
    ghost use Rattle.std.specs.Prelude.{List, ℕ, ◌*◌, ◌≤◌, length};
    ghost use Rattle.range_table.specs.Shown.{shown_from};

    ghost Value = { List ℕ };

    ghost view = { λ table. shown_from 0 table.blocks.items table.entries.items };

    ghost invariant = { λ table. length table.entries.items ≤ 256 * length table.blocks.items };
}

impl RangeTable {
    /// So many zeros.
    #[tactic(auto, using(crate::proofs::ShownLemmas::shown_zeros))]
    pub fn new(alloc: Global, count: usize) -> Result<RangeTable, AllocError>
        ensures { IfOk result (λ table. table ≡ replicate count 0) }
    {
        let entries = vec![in alloc; 0u64; count]?;
        let blocks = vec![in alloc; 0u64; count / BLOCK + 1]?;
        Ok(RangeTable { entries, blocks })
    }

    /// How many numbers there are.
    #[tactic(auto, using(crate::proofs::ShownLemmas::length_shown))]
    pub fn len(&self) -> usize
        ensures { result ≡ length self.now }
    {
        self.entries.len()
    }

    /// The number at an index.
    #[tactic(auto, using(crate::proofs::ShownLemmas::length_shown, crate::proofs::ShownLemmas::shown_at))]
    pub fn get(&self, index: usize) -> u64
        requires { index < length self.now }
        ensures { result ≡ slice_index self.now index }
    {
        self.entries[index].wrapping_add(self.blocks[index / BLOCK])
    }

    /// Puts a number at an index.
    #[tactic(auto, using(crate::proofs::ShownLemmas::length_shown, crate::proofs::ShownLemmas::shown_set))]
    pub fn set(&mut self, index: usize, number: u64)
        requires { index < length self.old }
        ensures { self.new ≡ slice_set self.old index number }
    {
        self.entries[index] = number.wrapping_sub(self.blocks[index / BLOCK]);
    }

    /// Puts all numbers, as many as there are.
    #[tactic(auto, using(crate::proofs::ShownLemmas::length_shown, crate::proofs::ShownLemmas::shown_plain))]
    pub fn fill(&mut self, numbers: &[u64])
        requires { length numbers.now ≡ length self.old }
        ensures { self.new ≡ numbers.now }
    {
        self.entries.copy_from_slice(numbers);
        self.blocks.fill(0);
    }

    /// Adds to the entries themselves.
    #[tactic(auto, using(crate::proofs::ShownLemmas::length_shown, crate::proofs::MovingLemmas::entries_moved))]
    fn add_to_entries(&mut self, from: usize, to: usize, more: u64)
        requires order { from ≤ to }
        requires within { to ≤ length self.old }
        ensures { IsMoved from to more self.old self.new }
    {
        add_each(&mut self.entries, from, to, more);
    }

    /// Adds to all entries of whole blocks.
    #[tactic(auto, using(crate::proofs::ShownLemmas::length_shown, crate::proofs::MovingLemmas::blocks_moved))]
    fn add_to_blocks(&mut self, first: usize, last: usize, more: u64)
        requires order { first ≤ last }
        requires within { 256 * last ≤ length self.old }
        ensures { IsMoved (256 * first) (256 * last) more self.old self.new }
    {
        add_each(&mut self.blocks, first, last, more);
    }

    /// Adds a number to each of those from one index up to another, modulo 2^64: entry by entry up to
    /// a block's beginning, block by block, and entry by entry behind the last whole block.
    #[tactic(auto, using(crate::proofs::MovingLemmas::moved_joined))]
    pub fn add(&mut self, from: usize, to: usize, more: u64)
        requires order { from ≤ to }
        requires within { to ≤ length self.old }
        ensures { IsMoved from to more self.old self.new }
    {
        let first = from.div_ceil(BLOCK);
        let last = to / BLOCK;
        if first < last {
            self.add_to_entries(from, BLOCK * first, more);
            self.add_to_blocks(first, last, more);
            self.add_to_entries(BLOCK * last, to, more);
        } else {
            self.add_to_entries(from, to, more);
        }
    }
}
