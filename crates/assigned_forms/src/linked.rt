//! The expanded forms by which fields name symbols: weak aliases stay, which another object may define too.

ghost use Rattle.std.specs.Prelude.{◌≡◌, false, map, option_map, slice_get, IfOk};
ghost use Rattle.std.specs.Option.{option_map_or};
ghost use Rattle.std.specs.List.{list_any};
ghost use Rattle.assigned_forms.specs.Expanding.{AreExpansions};
ghost use Rattle.assigned_forms.specs.Linked as spec;

use crate::expanding::MadeForms;
use crate::expansions::{Expansions, made};
use crate::opened::{Opened, form_of};
use asm_base::NoMemory;
use asm_expr::{Linear, Term};
use asm_symbols::{Meaning, Symbol, Symbols, is_weak};
use std::alloc::{AllocError, Global};

/// Whether it is a label or space of this object.
fn has_place(meaning: &Meaning) -> bool
    ensures { result ≡ spec.has_place meaning.now }
{
    matches!(meaning, Meaning::Label(_) | Meaning::Space(_))
}

/// Whether the symbol at the index is a label or space of this object.
fn is_placed(symbols: &Symbols, at: usize) -> bool
    ensures { result ≡ spec.is_placed symbols.now at }
{
    match symbols.as_slice().get(at) {
        Some(symbol) => has_place(&symbol.meaning),
        None => false,
    }
}

/// Whether the terms are a label or space of this object, once.
fn is_one_place(symbols: &Symbols, terms: &[Term]) -> bool
    ensures { result ≡ spec.is_one_place symbols.now terms.now }
{
    match terms {
        [term] => term.coefficient == 1 && is_placed(symbols, term.symbol.index() as usize),
        _ => false,
    }
}

/// Whether the expanded form, if it is there, is a place of this object and a number.
fn comes_to_place(symbols: &Symbols, found: Option<&Linear>) -> bool
    ensures { let there = option_map (λ form. form.now) found.entry in
        result ≡ spec.comes_to_place symbols.now there }
{
    match found {
        Some(form) => is_one_place(symbols, form.terms()),
        None => false,
    }
}

/// Whether the symbol is weak and assigned.
fn is_weak_assigned(symbol: &Symbol) -> bool
    ensures { result ≡ spec.is_weak_assigned symbol.now }
{
    is_weak(symbol.binding) && form_of(&symbol.meaning).is_some()
}

/// Whether some symbol is weak and assigned, as in few sources.
fn has_weak_assigned(symbols: &Symbols) -> bool
    ensures { result ≡ list_any spec.is_weak_assigned symbols.now.symbols }
{
    symbols
        .as_slice()
        .iter()
        .any(|symbol| is_weak_assigned(symbol))
}

/// Whether the symbol at the index is a weak alias, by the expanded forms of all assigned symbols.
#[tactic(auto, using(crate::proofs::LinkedLemmas::alias_known))]
fn is_alias_at(symbols: &Symbols, expansions: &Expansions, index: usize) -> bool
    requires { AreExpansions symbols.now expansions.now }
    ensures { result ≡ option_map_or (spec.is_weak_alias symbols.now)
        (slice_get symbols.now.symbols index) false }
{
    match symbols.as_slice().get(index) {
        Some(symbol) => {
            is_weak(symbol.binding) && comes_to_place(symbols, expansions.entry_at(index))
        },
        None => false,
    }
}

/// Marks of the weak aliases.
fn aliases(
    alloc: Global,
    symbols: &Symbols,
    expansions: &Expansions,
) -> Result<Vec<bool>, AllocError>
    requires { AreExpansions symbols.now expansions.now }
    ensures { IfOk result (λ marks. marks.items
        ≡ map (spec.is_weak_alias symbols.now) symbols.now.symbols) }
{
    let count = symbols.as_slice().len();
    let mut marks = Vec::with_capacity(alloc, count)?;
    for index in 0..count {
        marks.push(is_alias_at(symbols, expansions, index))?;
    }
    Ok(marks)
}

/// The expanded forms of the symbols, where weak aliases are undefined. Where no symbol is weak and
/// assigned, they are those of all assigned symbols.
#[tactic(auto, using(crate::proofs::LinkedLemmas::aliases_opened, crate::proofs::LinkedLemmas::none_left))]
pub fn linked_expansions<'a>(
    alloc: Global,
    symbols: &'a Symbols,
) -> Result<Expansions<'a>, NoMemory>
    ensures { IfOk result (AreExpansions (spec.linked_map symbols.now)) }
{
    let expansions = Expansions::new(alloc, symbols)?;
    if !has_weak_assigned(symbols) {
        return Ok(expansions);
    }
    let marks = aliases(alloc, symbols, &expansions)?;
    let view = Opened {
        symbols,
        marks: &marks,
    };
    Ok(made(MadeForms::new(alloc, view)?))
}
