//! The index of names: where each name stands in a list.

use crate::entries::Symbol;
use crate::name_chains::{NameChains, Sought, numeric_hash, place_hash, text_hash};
use asm_expr::Name;
use std::alloc::{AllocError, Global};
use std::marker::Model;

/// Where each name stands.
#[derive(Drop)]
pub(crate) struct NameIndex {
    names: NameChains,
}

impl Model for NameIndex {
    ghost use Rattle.std.specs.Prelude.{ℕ, List};

    ghost Value = { List ℕ };

    ghost view = { λ index. index.names.hashes };
}

impl NameIndex {
    ghost use Rattle.std.specs.Prelude.{◌≡◌, ◌+◌, ◌^◌, ◌<◌, [], ◌∷◌, ◌++◌, length, OnOk, OnErr};
    ghost use Rattle.asm_expr.specs.declared.naming.Name.TheVariants.{Plain, Numeric, Place};
    ghost use Rattle.asm_symbols.specs.SymbolMap.{names, index_of};
    ghost use Rattle.asm_symbols.specs.NameChains.{IsHashOf};
    ghost use Rattle.asm_symbols.specs.Sound.{IsIndexed};

    /// No names.
    pub(crate) fn new(alloc: Global) -> NameIndex
        ensures { result ≡ [] }
    {
        NameIndex {
            names: NameChains::new(alloc),
        }
    }

    /// Where the text of this hash stands among the symbols' names.
    #[inline(always)]
    pub(crate) fn find_hashed(&self, symbols: &[Symbol], text: &[u8], hash: u32) -> Option<u32>
        requires indexed { IsIndexed self.now (names symbols.now) }
        requires own { IsHashOf text.now hash }
        ensures { result ≡ index_of (Plain text.now) (names symbols.now) }
    {
        self.names.find(symbols, Sought::Text(text), hash)
    }

    /// Where the text stands among the symbols' names.
    pub(crate) fn find_text(&self, symbols: &[Symbol], text: &[u8]) -> Option<u32>
        requires { IsIndexed self.now (names symbols.now) }
        ensures { result ≡ index_of (Plain text.now) (names symbols.now) }
    {
        self.find_hashed(symbols, text, text_hash(text))
    }

    /// Where the instance of a numeric label stands among the symbols' names.
    pub(crate) fn find_numeric(&self, symbols: &[Symbol], number: u64, instance: u32) -> Option<u32>
        requires { IsIndexed self.now (names symbols.now) }
        ensures { result ≡ index_of (Numeric number instance) (names symbols.now) }
    {
        let sought = Sought::Numeric { number, instance };
        self.names
            .find(symbols, sought, numeric_hash(number, instance))
    }

    /// Where the place stands among the symbols' names.
    fn find_place(&self, symbols: &[Symbol], section: u32, item: u64, offset: u64) -> Option<u32>
        requires { IsIndexed self.now (names symbols.now) }
        ensures { result ≡ index_of (Place section item offset) (names symbols.now) }
    {
        let sought = Sought::Place {
            section,
            item,
            offset,
        };
        self.names
            .find(symbols, sought, place_hash(section, item, offset))
    }

    /// Where the name stands among the symbols' names.
    pub(crate) fn find(&self, symbols: &[Symbol], name: &Name) -> Option<u32>
        requires { IsIndexed self.now (names symbols.now) }
        ensures { result ≡ index_of name.now (names symbols.now) }
    {
        match name {
            Name::Plain(text) => self.find_text(symbols, text.as_bytes()),
            Name::Numeric { number, instance } => self.find_numeric(symbols, *number, *instance),
            Name::Place {
                section,
                item,
                offset,
            } => self.find_place(symbols, *section, *item, *offset),
        }
    }

    /// The name of this hash stands behind all others.
    pub(crate) fn push(&mut self, alloc: Global, hash: u32) -> Result<(), AllocError>
        requires { length self.old + 1 < 2 ^ 32 }
        ensures ok { OnOk result (self.new ≡ self.old ++ hash ∷ []) }
        ensures err { OnErr result (self.new ≡ self.old) }
    {
        self.names.reserve(alloc)?;
        self.names.push(hash);
        Ok(())
    }
}
