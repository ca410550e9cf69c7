//! The numbers of symbols in the symbol table, by which relocations name them.

ghost use Rattle.std.specs.Prelude.{◌≡◌, ◌+◌, ◌^◌, ◌<◌, ◌≤◌, length, IfOk};
ghost use Rattle.asm_frags.specs.Groups.{groups_of};
ghost use Rattle.elf_symbols.specs.Numbers as spec;
ghost use Rattle.elf_symbols.specs.SymbolTable as table;
ghost use Rattle.elf_symbols.specs.Views.{numbers_view};

use crate::symbol_values::Placement;
use crate::targets::Target;
use asm_symbols::Symbols;
use std::alloc::{AllocError, Global};

/// Whether a symbol stands in the table, and in which part of it.
#[derive(Clone, Copy)]
pub(crate) enum Standing {
    Absent,
    /// Among those whose binding is `STB_LOCAL`.
    Local,
    Other,
}

/// The numbers of the sections and symbols of a source in the symbol table of its object.
#[derive(Drop)]
pub struct Numbers {
    pub(crate) sections: Vec<usize>,
    pub(crate) symbols: Vec<usize>,
    /// Those of the signatures of groups.
    pub(crate) groups: Vec<usize>,
}

impl Numbers {
    /// The number of what a relocation names.
    pub fn of(&self, target: Target) -> usize
        ensures { result ≡ spec.target_number (numbers_view self.now) target }
    {
        match target {
            Target::OfSection(number) => self.sections.get(number).copied().unwrap_or(0),
            Target::OfSymbol(index) => self.symbols.get(index).copied().unwrap_or(0),
        }
    }

    /// The number of the signature of the group of this index.
    pub fn of_group(&self, index: usize) -> usize
        ensures { result ≡ spec.group_symbol (numbers_view self.now) index }
    {
        self.groups.get(index).copied().unwrap_or(0)
    }
}

/// Whether the symbol of the signature has an entry of its own, where symbols stand so.
pub(crate) fn is_signature_listed(
    symbols: &Symbols,
    standings: &[Standing],
    signature: &[u8],
) -> bool
    ensures { result ≡ table.is_signature_listed symbols.now standings.now signature.now }
{
    match symbols.find_text(signature) {
        Some(id) => !matches!(
            standings.get(id.index() as usize),
            None | Some(Standing::Absent)
        ),
        None => false,
    }
}

/// The number among these of the symbol of the signature.
fn signature_number(symbols: &Symbols, numbers: &[usize], signature: &[u8]) -> usize
    ensures { result ≡ spec.signature_number symbols.now numbers.now signature.now }
{
    match symbols.find_text(signature) {
        Some(id) => numbers.get(id.index() as usize).copied().unwrap_or(0),
        None => 0,
    }
}

/// The own number of a symbol that has an entry of its own, and else the next one.
fn number_if(listed: bool, own: usize, next: usize) -> usize
    ensures { result ≡ spec.number_if listed own next }
{
    if listed { own } else { next }
}

/// The next number behind it.
fn next_if(listed: bool, next: usize) -> usize
    requires { next + 1 < 2 ^ 64 }
    ensures value { result ≡ spec.next_if listed next }
    ensures within { result ≤ next + 1 }
{
    if listed { next } else { next + 1 }
}

/// The numbers of the symbols of signatures: those of their own entries, where they have one, and else
/// the next from `first` on.
pub(crate) fn group_numbers(
    alloc: Global,
    at: Placement,
    standings: &[Standing],
    numbers: &[usize],
    first: usize,
) -> Result<Vec<usize>, AllocError>
    requires { first ≤ 2 ^ 63 }
    ensures { IfOk result (λ made. made.items ≡ spec.group_numbers at.entry.symbols.now
        standings.now numbers.now first (groups_of at.entry.sections.now)) }
{
    let mut made = Vec::with_capacity(alloc, at.sections.group_count())?;
    let mut next = first;
    for index in 0..at.sections.group_count() {
        let (signature, _) = at.sections.group(index);
        let listed = is_signature_listed(at.symbols, standings, signature);
        let own = signature_number(at.symbols, numbers, signature);
        made.push(number_if(listed, own, next))?;
        next = next_if(listed, next);
    }
    Ok(made)
}

/// The numbers of sections, where those that are marked have the numbers from `first` on.
pub(crate) fn section_numbers(
    alloc: Global,
    first: usize,
    marks: &[bool],
) -> Result<Vec<usize>, AllocError>
    requires { first + length marks.now < 2 ^ 64 }
    ensures { IfOk result (λ numbers. numbers.items ≡ spec.section_numbers first marks.now) }
{
    let mut numbers = Vec::with_capacity(alloc, marks.len())?;
    let mut next = first;
    for mark in marks {
        numbers.push(next)?;
        if *mark {
            next += 1;
        }
    }
    Ok(numbers)
}

/// The numbers of symbols, where local ones have the numbers from `local` on, and others those from `other` on.
pub(crate) fn symbol_numbers(
    alloc: Global,
    local: usize,
    other: usize,
    standings: &[Standing],
) -> Result<Vec<usize>, AllocError>
    requires locals { local + length standings.now < 2 ^ 64 }
    requires others { other + length standings.now < 2 ^ 64 }
    ensures { IfOk result (λ numbers. numbers.items
        ≡ spec.symbol_numbers local other standings.now) }
{
    let mut numbers = Vec::with_capacity(alloc, standings.len())?;
    let mut next_local = local;
    let mut next_other = other;
    for standing in standings {
        match standing {
            Standing::Absent => numbers.push(0)?,
            Standing::Local => {
                numbers.push(next_local)?;
                next_local += 1;
            }
            Standing::Other => {
                numbers.push(next_other)?;
                next_other += 1;
            }
        }
    }
    Ok(numbers)
}
