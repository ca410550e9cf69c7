//! The symbol map, and what can be asked of it.

use crate::entries::{Binding, Kind, Meaning, Symbol, Visibility};
use crate::name_index::NameIndex;
use asm_expr::{Linear, Name, SymId};
use indexmap::IndexMap;
use std::alloc::Global;
use std::marker::Model;

/// The symbols of a source in the order in which they are first named, and what is known of each.
#[derive(Drop)]
pub struct Symbols {
    pub(crate) alloc: Global,
    pub(crate) index: NameIndex,
    pub(crate) symbols: Vec<Symbol>,
    pub(crate) files: Vec<Name>,
    /// How often each numeric label is defined.
    pub(crate) counts: IndexMap<u64, u32>,
    /// How many sizes were said.
    pub(crate) sizes: u64,
    /// The bytes of all names that are texts, each with a zero byte.
    pub(crate) bytes: u64,
}

impl Model for Symbols {
    ghost use Rattle.asm_symbols.specs.SymbolMap.{SymbolMap};
    ghost use Rattle.asm_symbols.specs.Sound.{IsSound};

    ghost Value = { SymbolMap };

    ghost view = { λ map. record {
      symbols = map.symbols.items;
      files = map.files.items;
      counts = map.counts.entries;
      sizes = map.sizes;
    } };

    ghost invariant = { λ map.
        IsSound map.index map.symbols.items map.files.items map.counts.entries map.bytes };
}

impl Symbols {
    ghost use Rattle.std.specs.Prelude.{◌≡◌, ◌<◌, length, slice_get, Some, IfSome};
    ghost use Rattle.asm_expr.specs.declared.naming.Name.TheVariants.{Plain, Numeric};
    ghost use Rattle.asm_symbols.specs.SymbolMap.{nothing_named, names, index_of};
    ghost use Rattle.asm_symbols.specs.Counting.{counted, last_named, known_value};

    /// No symbols.
    pub fn new(alloc: Global) -> Symbols
        ensures { result ≡ nothing_named }
    {
        Symbols {
            alloc,
            index: NameIndex::new(alloc),
            symbols: Vec::new(alloc),
            files: Vec::new(alloc),
            counts: IndexMap::new(alloc),
            sizes: 0,
            bytes: 0,
        }
    }

    /// How many symbols there are.
    pub fn len(&self) -> usize
        ensures { result ≡ length self.now.symbols }
    {
        self.symbols.len()
    }

    /// The symbol of the name.
    pub fn find(&self, name: &Name) -> Option<SymId>
        ensures value { result ≡ index_of name.now (names self.now.symbols) }
        ensures within { IfSome result (λ id. id < length self.now.symbols) }
    {
        match self.index.find(&self.symbols, name) {
            Some(place) => Some(SymId::new(place)),
            None => None,
        }
    }

    /// The symbol whose name is the text.
    pub fn find_text(&self, text: &[u8]) -> Option<SymId>
        ensures value { result ≡ index_of (Plain text.now) (names self.now.symbols) }
        ensures within { IfSome result (λ id. id < length self.now.symbols) }
    {
        match self.index.find_text(&self.symbols, text) {
            Some(place) => Some(SymId::new(place)),
            None => None,
        }
    }

    /// The symbol of the instance of a numeric label.
    pub fn find_numeric(&self, number: u64, instance: u32) -> Option<SymId>
        ensures value { result ≡ index_of (Numeric number instance) (names self.now.symbols) }
        ensures within { IfSome result (λ id. id < length self.now.symbols) }
    {
        match self.index.find_numeric(&self.symbols, number, instance) {
            Some(place) => Some(SymId::new(place)),
            None => None,
        }
    }

    /// The symbol and what is known of it.
    pub fn symbol(&self, id: SymId) -> &Symbol
        requires { id < length self.now.symbols }
        ensures { slice_get self.now.symbols id ≡ Some result.now }
    {
        &self.symbols[id.index() as usize]
    }

    /// The symbols, in the order in which they were first named.
    pub fn as_slice(&self) -> &[Symbol]
        ensures { result.now ≡ self.now.symbols }
    {
        self.symbols.as_slice()
    }

    /// The names of files, in order.
    pub fn files(&self) -> &[Name]
        ensures { result.now ≡ self.now.files }
    {
        self.files.as_slice()
    }

    /// How often the numeric label is defined.
    pub fn count(&self, number: u64) -> u32
        ensures { result ≡ counted self.now.counts number }
    {
        self.counts.get(&number).copied().unwrap_or(0)
    }
}
