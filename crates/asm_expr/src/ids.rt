//! The numbers by which symbols are named.

ghost use Rattle.std.specs.Prelude.{◌≡◌};

use std::marker::Model;

/// A symbol, by its index in the order in which symbols are first named.
#[derive(Clone, Copy, PartialEq, Eq, Debug)]
pub struct SymId {
    index: u32,
}

impl Model for SymId {
    ghost use Rattle.std.specs.Prelude.{ℕ};

    ghost Value = { ℕ };

    ghost view = { λ id. id.index };

    ghost inverse = { λ index. record { index = index } };
}

impl SymId {
    /// The symbol at the index.
    pub fn new(index: u32) -> SymId
        ensures { result ≡ index }
    {
        SymId { index }
    }

    /// The index of the symbol.
    pub fn index(self) -> u32
        ensures { result ≡ self }
    {
        self.index
    }
}
