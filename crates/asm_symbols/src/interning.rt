//! How a name becomes a symbol, and what room there is for names.

ghost use Rattle.std.specs.Prelude.{◌≡◌};
ghost use Rattle.asm_symbols.specs.Interning.{undefined, name_size};
ghost use Rattle.asm_symbols.specs.NameChains.{HasHash};

use crate::copies::copied_name;
use crate::entries::{Meaning, Symbol};
use crate::faults::{SymCause, SymFault};
use crate::name_chains::{numeric_hash, place_hash, text_hash};
use crate::symbol_map::Symbols;
use asm_base::NoMemory;
use asm_expr::{Name, Spelling, SymId, Written};
use std::alloc::AllocError;

/// The most symbols and files.
const MOST_NAMES: usize = 0x100_0000;

/// The most bytes of names.
const MOST_BYTES: u64 = 0x8000_0000;

/// A symbol of which nothing is known.
fn undefined(name: Name) -> Symbol
    ensures { result ≡ undefined name }
{
    Symbol {
        name,
        meaning: Meaning::Undefined,
        binding: None,
        kind: None,
        size: None,
        sized: 0,
        visibility: None,
    }
}

/// The bytes that a name takes: those of a text, and a zero byte.
fn name_size(name: &Name) -> u64
    ensures { result ≡ name_size name.now }
{
    match name {
        Name::Plain(text) => text.as_bytes().len() as u64 + 1,
        Name::Numeric { .. } | Name::Place { .. } => 0,
    }
}

/// The hash of a name.
fn hash_of(name: &Name) -> u32
    ensures { HasHash name.now result }
{
    match name {
        Name::Plain(text) => text_hash(text.as_bytes()),
        Name::Numeric { number, instance } => numeric_hash(*number, *instance),
        Name::Place {
            section,
            item,
            offset,
        } => place_hash(*section, *item, *offset),
    }
}

impl Symbols {
    ghost use Rattle.std.specs.Prelude.{◌≡◌, ◌<◌, ◌≤◌, length, None, unwrap_or, OnOk, OnErr, IfOk};
    ghost use Rattle.asm_expr.specs.declared.naming.Name.TheVariants.{Plain, Numeric};
    ghost use Rattle.asm_expr.specs.declared.trees.Written.TheVariants.{Back, Next};
    ghost use Rattle.asm_symbols.specs.SymbolMap.{names, index_of};
    ghost use Rattle.asm_symbols.specs.NameChains.{IsHashOf, HasHash};
    ghost use Rattle.asm_symbols.specs.Answering.{GivesFaultFirst, GivesSymbolFaultFirst};
    ghost use Rattle.asm_symbols.specs.Interning.{bytes_with, room_for, is_within_limits, with_name, added, named, interned, number_of, with_file};
    ghost use Rattle.asm_symbols.specs.Counting.{meant_name, next_named};

    /// The bytes of all names with one more, if their number fits in 64 bits.
    fn bytes_with(&self, name: &Name) -> Option<u64>
        ensures { result ≡ bytes_with self.now name.now }
    {
        self.bytes.checked_add(name_size(name))
    }

    /// The bytes of all names with one more, if there is room for it.
    fn room(&self, name: &Name) -> Option<u64>
        ensures { result ≡ room_for self.now name.now }
    {
        let bytes = self.bytes_with(name)?;
        if self.symbols.len() + self.files.len() < MOST_NAMES && bytes <= MOST_BYTES {
            Some(bytes)
        } else {
            None
        }
    }

    /// A symbol more, of which nothing is known, whatever room there is. `NoMemory` comes too where
    /// the number after its own would not fit in 32 bits, or the bytes of all names not in 64.
    fn push_hashed(&mut self, name: Name, hash: u32) -> Result<SymId, NoMemory>
        requires new { index_of name (names self.old.symbols) ≡ None }
        requires own { HasHash name hash }
        ensures ok { OnOk result (self.new ≡ with_name self.old name) }
        ensures id { IfOk result (λ id. id ≡ length self.old.symbols) }
        ensures unchanged { OnErr result (self.new ≡ self.old) }
    {
        let place = self.symbols.len();
        if place >= u32::MAX as usize {
            return Err(AllocError);
        }
        let Some(bytes) = self.bytes_with(&name) else {
            return Err(AllocError);
        };
        self.symbols.reserve(1)?;
        self.index.push(self.alloc, hash)?;
        self.symbols.push_reserved(undefined(name));
        self.bytes = bytes;
        Ok(SymId::new(place as u32))
    }

    /// A symbol more of this name, whatever room there is.
    fn push(&mut self, name: Name) -> Result<SymId, NoMemory>
        requires { index_of name (names self.old.symbols) ≡ None }
        ensures ok { OnOk result (self.new ≡ with_name self.old name) }
        ensures id { IfOk result (λ id. id ≡ length self.old.symbols) }
        ensures unchanged { OnErr result (self.new ≡ self.old) }
    {
        let hash = hash_of(&name);
        self.push_hashed(name, hash)
    }

    /// A symbol more whose name is this text, whatever room there is.
    #[inline(never)]
    fn push_text(&mut self, text: &[u8], hash: u32) -> Result<SymId, NoMemory>
        requires new { index_of (Plain text.now) (names self.old.symbols) ≡ None }
        requires own { IsHashOf text.now hash }
        ensures ok { OnOk result (self.new ≡ with_name self.old (Plain text.now)) }
        ensures id { IfOk result (λ id. id ≡ length self.old.symbols) }
        ensures unchanged { OnErr result (self.new ≡ self.old) }
    {
        self.push_hashed(Name::Plain(Spelling::new(self.alloc, text)?), hash)
    }

    /// A symbol more, of which nothing is known, if there is room for it.
    fn add(&mut self, name: &Name) -> Result<SymId, SymFault>
        requires { index_of name.now (names self.old.symbols) ≡ None }
        ensures value { GivesSymbolFaultFirst self.new result (added self.old name.now) }
        ensures unchanged { OnErr result (self.new ≡ self.old) }
    {
        if self.room(name).is_none() {
            return Err(SymFault::Fault(SymCause::BadSymbolUse));
        }
        let copy = copied_name(self.alloc, name)?;
        Ok(self.push(copy)?)
    }

    /// The symbol of the name, which is put last if it is not there.
    #[tactic(auto, unfolding(crate::specs::Interning::named))]
    pub fn name_of(&mut self, name: &Name) -> Result<SymId, SymFault>
        ensures value { GivesSymbolFaultFirst self.new result (named self.old name.now) }
        ensures within { IfOk result (λ id. id < length self.new.symbols) }
        ensures kept { length self.old.symbols ≤ length self.new.symbols }
        ensures unchanged { OnErr result (self.new ≡ self.old) }
    {
        if let Some(id) = self.find(name) {
            return Ok(id);
        }
        self.add(name)
    }

    /// The symbol whose name is the text, which is put last if it is not there, whatever room there
    /// is.
    #[tactic(auto, unfolding(crate::specs::Interning::interned, crate::specs::Interning::number_of))]
    pub fn intern_text(&mut self, text: &[u8]) -> Result<SymId, NoMemory>
        ensures ok { OnOk result (self.new ≡ interned self.old (Plain text.now)) }
        ensures id { IfOk result (λ id. id ≡ number_of self.old (Plain text.now)) }
        ensures unchanged { OnErr result (self.new ≡ self.old) }
    {
        let hash = text_hash(text);
        match self.index.find_hashed(&self.symbols, text, hash) {
            Some(place) => Ok(SymId::new(place)),
            None => self.push_text(text, hash),
        }
    }

    /// The symbol of the instance of a numeric label, which is put last if it is not there, whatever
    /// room there is.
    #[tactic(auto, unfolding(crate::specs::Interning::interned, crate::specs::Interning::number_of))]
    fn intern_numeric(&mut self, number: u64, instance: u32) -> Result<SymId, NoMemory>
        ensures ok { OnOk result (self.new ≡ interned self.old (Numeric number instance)) }
        ensures id { IfOk result (λ id. id ≡ number_of self.old (Numeric number instance)) }
        ensures unchanged { OnErr result (self.new ≡ self.old) }
    {
        if let Some(id) = self.find_numeric(number, instance) {
            return Ok(id);
        }
        self.push(Name::Numeric { number, instance })
    }

    /// The symbol that `Nb` means, which is put last if it is not there, whatever room there is.
    pub fn intern_back(&mut self, number: u64) -> Result<SymId, NoMemory>
        ensures ok { OnOk result
            (self.new ≡ interned self.old (meant_name self.old.counts (Back number))) }
        ensures id { IfOk result (λ id.
            id ≡ number_of self.old (meant_name self.old.counts (Back number))) }
        ensures unchanged { OnErr result (self.new ≡ self.old) }
    {
        let instance = self.count(number);
        self.intern_numeric(number, instance)
    }

    /// The symbol that `Nf` means, which is put last if it is not there, whatever room there is.
    pub fn intern_next(&mut self, number: u64) -> Result<SymId, NoMemory>
        ensures ok { OnOk result
            (self.new ≡ interned self.old (meant_name self.old.counts (Next number))) }
        ensures id { IfOk result (λ id.
            id ≡ number_of self.old (meant_name self.old.counts (Next number))) }
        ensures unchanged { OnErr result (self.new ≡ self.old) }
    {
        let instance = self.count(number).saturating_add(1);
        self.intern_numeric(number, instance)
    }

    /// The symbol that the name means, which is put last if it is not there, whatever room there is:
    /// `is_within_limits` tells whether it may be.
    pub fn intern(&mut self, written: &Written) -> Result<SymId, NoMemory>
        ensures ok { OnOk result
            (self.new ≡ interned self.old (meant_name self.old.counts written.now)) }
        ensures id { IfOk result (λ id.
            id ≡ number_of self.old (meant_name self.old.counts written.now)) }
        ensures unchanged { OnErr result (self.new ≡ self.old) }
    {
        match written {
            Written::Plain(text) => self.intern_text(text.as_bytes()),
            Written::Back(number) => self.intern_back(*number),
            Written::Next(number) => self.intern_next(*number),
        }
    }

    /// Whether there are no more symbols and files, and no more bytes of names, than there may be.
    pub fn is_within_limits(&self) -> bool
        ensures { result ≡ is_within_limits self.now }
    {
        self.symbols.len() + self.files.len() <= MOST_NAMES && self.bytes <= MOST_BYTES
    }

    /// The number of the symbol whose name is the text, which is that of the next symbol where there
    /// is none.
    #[tactic(auto, unfolding(crate::specs::Interning::number_of))]
    pub fn meant_text(&self, text: &[u8]) -> SymId
        ensures { result ≡ number_of self.now (Plain text.now) }
    {
        self.or_next(self.find_text(text))
    }

    /// The number of the symbol that `Nb` means, or that of the next symbol where there is none.
    #[tactic(auto, unfolding(crate::specs::Interning::number_of))]
    pub fn meant_back(&self, number: u64) -> SymId
        ensures { result ≡ number_of self.now (meant_name self.now.counts (Back number)) }
    {
        self.or_next(self.find_numeric(number, self.count(number)))
    }

    /// The number of the symbol that `Nf` means, or that of the next symbol where there is none.
    #[tactic(auto, unfolding(crate::specs::Interning::number_of))]
    pub fn meant_next(&self, number: u64) -> SymId
        ensures { result ≡ number_of self.now (meant_name self.now.counts (Next number)) }
    {
        self.or_next(self.find_numeric(number, self.count(number).saturating_add(1)))
    }

    /// The number of the symbol that the name means, or that of the next symbol where there is none.
    pub fn meant(&self, written: &Written) -> SymId
        ensures { result ≡ number_of self.now (meant_name self.now.counts written.now) }
    {
        match written {
            Written::Plain(text) => self.meant_text(text.as_bytes()),
            Written::Back(number) => self.meant_back(*number),
            Written::Next(number) => self.meant_next(*number),
        }
    }

    /// The number of the symbol, or that of the next symbol where there is none.
    fn or_next(&self, found: Option<SymId>) -> SymId
        ensures { result ≡ unwrap_or found (length self.now.symbols) }
    {
        match found {
            Some(id) => id,
            None => SymId::new(self.symbols.len() as u32),
        }
    }

    /// The number of the name's symbol, or that of the next symbol where there is none.
    #[tactic(auto, unfolding(crate::specs::Interning::number_of))]
    pub fn number_of(&self, name: &Name) -> SymId
        ensures { result ≡ number_of self.now name.now }
    {
        self.or_next(self.find(name))
    }

    /// The name of a file more.
    #[tactic(auto, unfolding(crate::specs::Interning::with_file))]
    pub fn file(&mut self, name: &Name) -> Result<(), SymFault>
        ensures value { GivesFaultFirst self.new result (with_file self.old name.now) }
        ensures kept { length self.new.symbols ≡ length self.old.symbols }
        ensures unchanged { OnErr result (self.new ≡ self.old) }
    {
        let Some(bytes) = self.room(name) else {
            return Err(SymFault::Fault(SymCause::BadSymbolUse));
        };
        self.files.push(copied_name(self.alloc, name)?)?;
        self.bytes = bytes;
        Ok(())
    }

    /// The symbol of the instance of a numeric label that is defined next.
    #[tactic(auto, unfolding(crate::specs::Counting::next_named))]
    pub fn numeric_next(&mut self, number: u64) -> Result<SymId, SymFault>
        ensures value { GivesSymbolFaultFirst self.new result (next_named self.old number) }
        ensures within { IfOk result (λ id. id < length self.new.symbols) }
        ensures kept { length self.old.symbols ≤ length self.new.symbols }
        ensures unchanged { OnErr result (self.new ≡ self.old) }
    {
        let instance = self.count(number).saturating_add(1);
        self.name_of(&Name::Numeric { number, instance })
    }
}
