//! Numbers that are kept beside functions, so that each step takes a few operations.

ghost use Rattle.std.specs.Prelude.{◌≡◌, ◌≤◌, ◌<◌, [], ℕ, length, slice_index, slice_set, OnOk};

use asm_base::NoMemory;
use std::alloc::Global;
use std::marker::Model;

/// A number for each index, 0 from some on.
#[derive(Drop)]
pub(crate) struct Tally {
    numbers: Vec<usize>,
}

impl Model for Tally {
    ghost use Rattle.std.specs.Prelude.{List, ℕ};

    ghost Value = { List ℕ };

    ghost view = { λ inside. inside.numbers.items };
}

impl Tally {
    /// All are 0.
    pub(crate) fn new(alloc: Global) -> Tally
        ensures { result ≡ [] }
    {
        Tally {
            numbers: Vec::new(alloc),
        }
    }

    /// Makes room for the number of this index.
    pub(crate) fn reach(&mut self, index: u32) -> Result<(), NoMemory>
        ensures same { (i : ℕ) → slice_index self.new i ≡ slice_index self.old i }
        ensures ok { OnOk result (index < length self.new) }
    {
        let index = index as usize;
        if index >= self.numbers.len() {
            self.numbers.resize(index + 1, 0)?;
        }
        Ok(())
    }

    pub(crate) fn get(&self, index: u32) -> usize
        ensures { result ≡ slice_index self.now index }
    {
        match self.numbers.get(index as usize) {
            Some(number) => *number,
            None => 0,
        }
    }

    pub(crate) fn set(&mut self, index: u32, number: usize)
        ensures { self.new ≡ slice_set self.old index number }
    {
        let index = index as usize;
        if index < self.numbers.len() {
            self.numbers[index] = number;
        }
    }
}
