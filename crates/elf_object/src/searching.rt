//! The faults of symbols: those that are not defined, and those whose size has no value.

ghost use Rattle.std.specs.Prelude.{◌≡◌, ◌≤◌, length, IfOk};
ghost use Rattle.std.specs.List.{position_or_len};
ghost use Rattle.assigned_forms.specs.Expanding.{AreExpansions};
ghost use Rattle.elf_object.specs.Faults as spec;

use crate::faults::ObjectCause;
use asm_base::NoMemory;
use asm_expr::BoxedForm;
use asm_symbols::{Meaning, Symbol};
use assigned_forms::Expansions;
use elf_symbols::{Placement, is_file_local, size_value};
use std::alloc::Global;

/// Whether the symbol must be defined in this file, and is not.
fn is_undefined_local(symbol: &Symbol) -> bool
    ensures { result ≡ spec.is_undefined_local symbol.now }
{
    is_file_local(&symbol.name) && matches!(symbol.meaning, Meaning::Undefined)
}

/// Where the first such symbol stands among them, or how many there are.
fn undefined_index(symbols: &[Symbol]) -> usize
    ensures value { result ≡ position_or_len spec.is_undefined_local symbols.now }
    ensures within { result ≤ length symbols.now }
{
    for (index, symbol) in symbols.iter().enumerate() {
        if is_undefined_local(symbol) {
            return index;
        }
    }
    symbols.len()
}

/// The fault of the first symbol that must be defined and is not.
pub(crate) fn undefined_fault(at: Placement) -> Option<ObjectCause>
    ensures { result ≡ spec.undefined_fault at.entry.symbols.now }
{
    let symbols = at.symbols.as_slice();
    let index = undefined_index(symbols);
    if index < symbols.len() {
        Some(ObjectCause::UndefinedLocalSymbol(index))
    } else {
        None
    }
}

/// Whether the size is said and has no value.
fn unknown_size(
    alloc: Global,
    at: Placement,
    expansions: &Expansions,
    size: &Option<BoxedForm>,
) -> Result<bool, NoMemory>
    requires { AreExpansions at.symbols.now expansions.now }
    ensures { IfOk result (λ unknown. unknown
        ≡ spec.unknown_size at.entry.symbols.now at.entry.sections.now size.now) }
{
    match size {
        None => Ok(false),
        Some(size) => Ok(size_value(alloc, at, expansions, size.as_form())?.is_none()),
    }
}

/// A symbol whose size has no value, and the number of the `.size` statement that counts for it.
#[derive(Clone, Copy)]
pub struct UnknownSize {
    pub symbol: usize,
    pub statement: u64,
}

/// The symbol at this index, if its size has no value.
fn unknown_at(
    alloc: Global,
    at: Placement,
    expansions: &Expansions,
    index: usize,
    symbol: &Symbol,
) -> Result<Option<UnknownSize>, NoMemory>
    requires { AreExpansions at.symbols.now expansions.now }
    ensures { IfOk result (λ found. found
        ≡ spec.unknown_at at.entry.symbols.now at.entry.sections.now index symbol.now) }
{
    if unknown_size(alloc, at, expansions, &symbol.size)? {
        return Ok(Some(UnknownSize {
            symbol: index,
            statement: symbol.sized,
        }));
    }
    Ok(None)
}

/// The one whose `.size` statement comes first.
fn earlier(one: Option<UnknownSize>, other: Option<UnknownSize>) -> Option<UnknownSize>
    ensures { result ≡ spec.earlier one other }
{
    match (one, other) {
        (None, found) => found,
        (Some(first), Some(second)) if first.statement > second.statement => Some(second),
        (Some(first), _) => Some(first),
    }
}

/// Of these symbols, the one of the first `.size` statement without a value.
fn first_unknown(
    alloc: Global,
    at: Placement,
    expansions: &Expansions,
    symbols: &[Symbol],
) -> Result<Option<UnknownSize>, NoMemory>
    requires { AreExpansions at.symbols.now expansions.now }
    ensures { IfOk result (λ found. found
        ≡ spec.first_unknown at.entry.symbols.now at.entry.sections.now 0 symbols.now) }
{
    let mut found = None;
    for (index, symbol) in symbols.iter().enumerate() {
        found = earlier(found, unknown_at(alloc, at, expansions, index, symbol)?);
    }
    Ok(found)
}

/// The fault of the first `.size` statement without a value.
pub(crate) fn size_fault(
    alloc: Global,
    at: Placement,
    expansions: &Expansions,
) -> Result<Option<ObjectCause>, NoMemory>
    requires { AreExpansions at.symbols.now expansions.now }
    ensures { IfOk result (λ fault. fault
        ≡ spec.size_fault at.entry.symbols.now at.entry.sections.now) }
{
    match first_unknown(alloc, at, expansions, at.symbols.as_slice())? {
        Some(found) => Ok(Some(ObjectCause::SizeNotKnown(found.symbol))),
        None => Ok(None),
    }
}
