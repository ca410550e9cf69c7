//! Where each name stands in a list: chains of places whose names have like hashes.

ghost use Rattle.std.specs.Prelude.{◌≡◌, ◌<◌, ◌==◌, ◌&&◌};
ghost use Rattle.asm_expr.specs.declared.naming.Name.TheVariants.{Plain, Numeric, Place};
ghost use Rattle.asm_expr.specs.Names.{same_name};
ghost use Rattle.asm_symbols.specs.NameChains.{IsHashOf, numeric_hash, place_hash, chain_of, sought_name};

use crate::entries::Symbol;
use asm_expr::Name;
use std::alloc::{AllocError, Global};
use std::hash::{FoldHasher, Hasher};
use std::marker::Model;

/// An odd number whose multiples spread over 32 bits.
const SPREADING: u64 = 0x9e37_79b1;

/// How many hashes there are.
const HASHES: u64 = 1 << 32;

/// How many chains there are at first.
const FEWEST_CHAINS: usize = 64;

/// A place in a chain: the hash of what stands there, and the number of the place before it in the
/// chain, from 1; 0 where there is none.
#[derive(Clone, Copy)]
pub(crate) struct Link {
    hash: u32,
    before: u32,
}

/// The hash of a text.
#[inline(always)]
pub(crate) fn text_hash(text: &[u8]) -> u32
    ensures { IsHashOf text.now result }
{
    let mut hasher = FoldHasher::default();
    hasher.write(text);
    (hasher.finish() >> 32) as u32
}

/// The hash of an instance of a numeric label: the instances of a label have neighbouring hashes, so
/// that the heads of their chains stand side by side.
#[inline(always)]
#[tactic(auto, unfolding(crate::specs::NameChains::numeric_hash))]
pub(crate) fn numeric_hash(number: u64, instance: u32) -> u32
    ensures { result ≡ numeric_hash number instance }
{
    let sum = number.wrapping_mul(SPREADING).wrapping_add(instance as u64);
    (sum % HASHES) as u32
}

/// The hash of a place. Neighbours in a section have neighbouring hashes, so that the heads of their
/// chains stand side by side; and places rise along a section, so that few share a hash.
#[inline(always)]
#[tactic(auto, unfolding(crate::specs::NameChains::place_hash))]
pub(crate) fn place_hash(section: u32, item: u64, offset: u64) -> u32
    ensures { result ≡ place_hash section item offset }
{
    let first = section as u64 * SPREADING;
    let sum = first
        .wrapping_add(item.wrapping_mul(2))
        .wrapping_add(offset / 16);
    (sum % HASHES) as u32
}

/// The chain of a hash among so many.
#[inline(always)]
fn chain_of(hash: u32, count: usize) -> usize
    requires { 0 < count }
    ensures value { result ≡ chain_of count hash }
    ensures within { result < count }
{
    hash as usize & (count - 1)
}

/// A name that is looked for.
#[derive(Clone, Copy)]
pub(crate) enum Sought<'a> {
    Text(&'a [u8]),
    Numeric {
        number: u64,
        instance: u32,
    },
    Place {
        section: u32,
        item: u64,
        offset: u64,
    },
}

/// Whether the name is the text.
#[inline(always)]
fn is_text(name: &Name, text: &[u8]) -> bool
    ensures { result ≡ same_name (Plain text.now) name.now }
{
    match name {
        Name::Plain(spelling) => spelling.as_bytes() == text,
        Name::Numeric { .. } | Name::Place { .. } => false,
    }
}

/// Whether the name is this instance of a numeric label.
#[inline(always)]
fn is_numeric(name: &Name, label: u64, last: u32) -> bool
    ensures { result ≡ same_name (Numeric label last) name.now }
{
    match name {
        Name::Numeric { number, instance } => label == *number && last == *instance,
        Name::Plain(_) | Name::Place { .. } => false,
    }
}

/// Whether the name is the place of this section behind so many items and plain bytes.
#[inline(always)]
fn is_place(name: &Name, within: u32, items: u64, bytes: u64) -> bool
    ensures { result ≡ same_name (Place within items bytes) name.now }
{
    match name {
        Name::Place {
            section,
            item,
            offset,
        } => within == *section && items == *item && bytes == *offset,
        Name::Plain(_) | Name::Numeric { .. } => false,
    }
}

/// Whether the name is the one that is looked for.
#[inline(always)]
fn is_sought(name: &Name, sought: Sought) -> bool
    ensures { result ≡ same_name (sought_name sought.entry) name.now }
{
    match sought {
        Sought::Text(text) => is_text(name, text),
        Sought::Numeric { number, instance } => is_numeric(name, number, instance),
        Sought::Place {
            section,
            item,
            offset,
        } => is_place(name, section, item, offset),
    }
}

/// Whether a symbol whose link is this has the name that is looked for, whose hash is this.
#[inline(always)]
fn is_found(link: Link, hash: u32, symbol: &Symbol, sought: Sought) -> bool
    ensures { result ≡ (link.hash == hash && same_name (sought_name sought.entry) symbol.now.name) }
{
    link.hash == hash && is_sought(&symbol.name, sought)
}

/// Chains of places by the hashes of what stands there.
#[derive(Drop)]
pub(crate) struct NameChains {
    /// The number of the last place of each chain.
    heads: Vec<u32>,
    links: Vec<Link>,
}

impl Model for NameChains {
    ghost use Rattle.std.specs.Prelude.{◌≤◌, ◌-◌, length, vec_capacity};
    ghost use Rattle.asm_symbols.specs.NameChains.{HashedPlaces, hashes_of, AreChained};

    ghost Value = { HashedPlaces };

    ghost view = { λ index. record {
      hashes = hashes_of index.links.items;
      room = length index.heads.items - length index.links.items;
    } };

    ghost invariant = { λ index.
        AreChained index.heads.items index.links.items
        × (length index.heads.items ≤ vec_capacity index.links) };
}

impl NameChains {
    ghost use Rattle.std.specs.Prelude.{◌≡◌, ◌+◌, ◌^◌, ◌<◌, [], ◌∷◌, ◌++◌, length, OnOk, IfOk};
    ghost use Rattle.asm_symbols.specs.SymbolMap.{names, index_of};
    ghost use Rattle.asm_symbols.specs.NameChains.{HasHash, AreHashed, sought_name};
    ghost use Rattle.asm_symbols.specs.Sound.{AreFound};

    /// No places.
    pub(crate) fn new(alloc: Global) -> NameChains
        ensures { result.hashes ≡ [] }
    {
        NameChains {
            heads: Vec::new(alloc),
            links: Vec::new(alloc),
        }
    }

    /// Where the name of this hash stands among the symbols' names.
    #[inline(always)]
    pub(crate) fn find(&self, symbols: &[Symbol], sought: Sought, hash: u32) -> Option<u32>
        requires hashed { AreHashed self.now.hashes (names symbols.now) }
        requires apart { AreFound (names symbols.now) }
        requires own { HasHash (sought_name sought) hash }
        ensures { result ≡ index_of (sought_name sought.entry) (names symbols.now) }
    {
        let heads = self.heads.as_slice();
        let links = self.links.as_slice();
        if heads.is_empty() {
            return None;
        }
        let mut number = heads[chain_of(hash, heads.len())];
        'chain: while number > 0 {
            let at = number - 1;
            let link = links[at as usize];
            if is_found(link, hash, &symbols[at as usize], sought) {
                return Some(at);
            }
            number = link.before;
        }
        None
    }

    /// No places yet, and room for so many.
    fn with_room(alloc: Global, count: usize) -> Result<NameChains, AllocError>
        ensures hashes { IfOk result (λ index. index.hashes ≡ []) }
        ensures room { IfOk result (λ index. index.room ≡ count) }
    {
        Ok(NameChains {
            heads: vec![in alloc; 0u32; count]?,
            links: Vec::with_capacity(alloc, count)?,
        })
    }

    /// Twice as many chains.
    #[inline(never)]
    fn grow(&mut self, alloc: Global) -> Result<(), AllocError>
        ensures hashes { self.new.hashes ≡ self.old.hashes }
        ensures ok { OnOk result (0 < self.new.room) }
    {
        let count = FEWEST_CHAINS.max(2 * self.heads.len());
        let mut grown = NameChains::with_room(alloc, count)?;
        for link in &self.links {
            grown.push(link.hash);
        }
        *self = grown;
        Ok(())
    }

    /// There is room for a place more.
    #[inline(always)]
    pub(crate) fn reserve(&mut self, alloc: Global) -> Result<(), AllocError>
        ensures hashes { self.new.hashes ≡ self.old.hashes }
        ensures ok { OnOk result (0 < self.new.room) }
    {
        if self.links.len() < self.heads.len() {
            return Ok(());
        }
        self.grow(alloc)
    }

    /// A place more, and the hash of what stands there.
    #[inline(always)]
    pub(crate) fn push(&mut self, hash: u32)
        requires room { 0 < self.old.room }
        requires few { length self.old.hashes + 1 < 2 ^ 32 }
        ensures hashes { self.new.hashes ≡ self.old.hashes ++ hash ∷ [] }
        ensures room { self.new.room + 1 ≡ self.old.room }
    {
        let at = chain_of(hash, self.heads.len());
        let before = self.heads[at];
        self.links.push_reserved(Link { hash, before });
        self.heads[at] = self.links.len() as u32;
    }
}
