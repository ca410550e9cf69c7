//! Where a statement stands: the file by its number, and the line.

ghost use Rattle.std.specs.Prelude.{◌≡◌, ◌==◌, ℕ, List, [], ◌∷◌, ◌++◌, length, map, slice_index_or, OnOk, OnErr, string_bytes};

use std::alloc::{AllocError, Global};
use std::marker::Model;

/// A place in the source.
#[derive(Clone, Copy, PartialEq, Eq, Debug)]
pub struct Pos {
    /// The number of the file in the order in which the files were started, from 0.
    pub file: u32,
    /// The line, from 1.
    pub line: u32,
}

/// The names of the files that were started, as messages show them, by number.
#[derive(Drop)]
pub struct Files {
    names: Vec<String>,
}

impl Model for Files {
    ghost Value = { List (List ℕ) };

    ghost view = { λ f. map string_bytes f.names.items };
}

impl Files {
    /// No file.
    pub fn new(alloc: Global) -> Files
        ensures { result ≡ [] }
    {
        Files {
            names: Vec::new(alloc),
        }
    }

    /// Puts a name last: its number is how many there were before.
    pub fn add(&mut self, name: String) -> Result<(), AllocError>
        ensures ok { OnOk result (self.new ≡ self.old ++ string_bytes name ∷ []) }
        ensures err { OnErr result (self.new ≡ self.old) }
    {
        self.names.push(name)?;
        Ok(())
    }

    /// How many there are.
    pub fn len(&self) -> usize
        ensures { result ≡ length self.now }
    {
        self.names.len()
    }

    /// Whether there is none.
    pub fn is_empty(&self) -> bool
        ensures { result ≡ (length self.now == 0) }
    {
        self.names.is_empty()
    }

    /// The name of a file's number, or no text where there is no such file.
    pub fn name(&self, file: u32) -> &str
        ensures { result.now ≡ slice_index_or self.now file [] }
    {
        match self.names.get(file as usize) {
            Some(name) => name.as_str(),
            None => "",
        }
    }
}
