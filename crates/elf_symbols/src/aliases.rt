//! Aliases: assigned symbols that stand for one other symbol (GNU as, ".set" and ".type").

ghost use Rattle.std.specs.Prelude.{◌≡◌, slice_get, option_map, option_and_then};
ghost use Rattle.elf_symbols.specs.Aliases as spec;

use asm_expr::{Linear, Term};
use asm_symbols::{Kind, Meaning, SymId, Symbol, Symbols};

/// The symbol that a form has alone.
fn lone_symbol(terms: &[Term]) -> Option<SymId>
    ensures { result ≡ spec.lone_symbol terms.now }
{
    match terms {
        [term] if term.coefficient == 1 => Some(term.symbol),
        _ => None,
    }
}

/// The symbol of a form that is one symbol and no number.
fn symbol_in(form: &Linear) -> Option<SymId>
    ensures { result ≡ spec.symbol_in form.now }
{
    if form.constant() != 0 {
        return None;
    }
    lone_symbol(form.terms())
}

/// Where the symbol stands that one of this meaning is an alias of.
fn alias_of(meaning: &Meaning) -> Option<SymId>
    ensures { result ≡ spec.alias_of meaning.now }
{
    match meaning {
        Meaning::Assigned(form) => symbol_in(form.as_form()),
        _ => None,
    }
}

/// The symbol that stands there, if one does.
fn symbol_at(symbols: &Symbols, id: Option<SymId>) -> Option<&Symbol>
    ensures { option_map (λ symbol. symbol.now) result
        ≡ option_and_then (slice_get symbols.now.symbols) id }
{
    symbols.as_slice().get(id?.index() as usize)
}

/// The kind of a symbol: its own, or else that of the symbol that it is an alias of.
#[tactic(auto, unfolding(crate::specs::Aliases::symbol_kind))]
pub(crate) fn symbol_kind(symbols: &Symbols, symbol: &Symbol) -> Option<Kind>
    ensures { result ≡ spec.symbol_kind symbols.now symbol.now }
{
    if let Some(kind) = symbol.kind {
        return Some(kind);
    }
    let mut next = alias_of(&symbol.meaning);
    let mut left = symbols.len();
    while left > 0 {
        let Some(found) = symbol_at(symbols, next) else {
            return None;
        };
        if let Some(kind) = found.kind {
            return Some(kind);
        }
        next = alias_of(&found.meaning);
        left -= 1;
    }
    None
}

/// The size of a symbol: its own, or else that of the symbol that it is an alias of.
#[tactic(auto, unfolding(crate::specs::Aliases::symbol_size))]
pub(crate) fn symbol_size<'a>(symbols: &'a Symbols, symbol: &'a Symbol) -> Option<&'a Linear>
    ensures { option_map (λ size. size.now) result ≡ spec.symbol_size symbols.now symbol.now }
{
    if let Some(size) = &symbol.size {
        return Some(size.as_form());
    }
    let mut next = alias_of(&symbol.meaning);
    let mut left = symbols.len();
    while left > 0 {
        let Some(found) = symbol_at(symbols, next) else {
            return None;
        };
        if let Some(size) = &found.size {
            return Some(size.as_form());
        }
        next = alias_of(&found.meaning);
        left -= 1;
    }
    None
}
