//! Fields of which the linker alone knows the value.

ghost use Rattle.std.specs.Prelude.{◌≡◌, ◌∷◌, []};
ghost use Rattle.asm_expr.specs.Forms.{wrapped};
ghost use Rattle.item_rows.specs.Links as spec;

use asm_expr::{Linear, Term};
use asm_frags::Field;
use asm_symbols::{Meaning, Symbols, is_weak};
use x86_insn::Suffix;

/// Whether there is a suffix.
pub fn is_suffixed(suffix: Option<Suffix>) -> bool
    ensures { result ≡ spec.is_suffixed suffix }
{
    suffix.is_some()
}

/// Whether the term is of a weak symbol.
fn is_of_weak(symbols: &Symbols, term: &Term) -> bool
    ensures { result ≡ spec.is_of_weak symbols.now term.now }
{
    match symbols.as_slice().get(term.symbol.index() as usize) {
        Some(found) => is_weak(found.binding),
        None => false,
    }
}

/// The section where a symbol of this meaning stands, if it is a label or space of the object.
fn meant_section(meaning: &Meaning) -> Option<u32>
    ensures { result ≡ spec.meant_section meaning.now }
{
    match meaning {
        Meaning::Label(spot) | Meaning::Space(spot) => Some(spot.place.section),
        Meaning::Undefined | Meaning::Common { .. } | Meaning::Assigned(_) => None,
    }
}

/// The section where the symbol of a term stands.
fn section_of(symbols: &Symbols, term: &Term) -> Option<u32>
    ensures { result ≡ spec.section_of symbols.now term.now.symbol }
{
    match symbols.as_slice().get(term.symbol.index() as usize) {
        Some(found) => meant_section(&found.meaning),
        None => None,
    }
}

/// How often the term counts in this section.
fn counted_in(symbols: &Symbols, section: u32, term: &Term) -> u64
    ensures { result ≡ spec.counted_in symbols.now section term.now }
{
    match section_of(symbols, term) {
        Some(own) if own == section => term.coefficient,
        _ => 0,
    }
}

/// How often the labels of this section count in the terms.
fn section_sum(symbols: &Symbols, section: u32, terms: &[Term]) -> u64
    ensures { result ≡ wrapped (spec.section_sum symbols.now section terms.now) }
{
    let mut sum: u64 = 0;
    for term in terms {
        sum = sum.wrapping_add(counted_in(symbols, section, term));
    }
    sum
}

/// Whether the symbol of a term is left when the labels of each section that cancel are taken out of
/// the terms. Few are asked: those of weak symbols.
#[inline(never)]
fn is_left(symbols: &Symbols, terms: &[Term], term: &Term) -> bool
    ensures { result ≡ spec.is_left_in symbols.now terms.now
        (spec.section_of symbols.now term.now.symbol) }
{
    match section_of(symbols, term) {
        Some(section) => section_sum(symbols, section, terms) != 0,
        None => true,
    }
}

/// Whether the term is of a weak symbol that is left of the terms.
fn is_weak_left(symbols: &Symbols, terms: &[Term], term: &Term) -> bool
    ensures { result ≡ spec.is_weak_left symbols.now terms.now term.now }
{
    is_of_weak(symbols, term) && is_left(symbols, terms, term)
}

/// Whether a weak symbol is left in the form when labels have cancelled.
#[inline(never)]
fn leaves_weak(symbols: &Symbols, form: &Linear) -> bool
    ensures { result ≡ spec.leaves_weak symbols.now form.now }
{
    let terms = form.terms();
    terms.iter().any(|term| is_weak_left(symbols, terms, term))
}

/// Whether the linker alone knows how far the symbol is from the field.
pub fn is_linked(symbols: &Symbols, field: &Field) -> bool
    ensures { result ≡ spec.is_linked symbols.now field.now }
{
    is_suffixed(field.role.suffix) || leaves_weak(symbols, &field.form)
}

/// The same for a field whose form has these two terms.
#[inline(always)]
#[tactic(auto, using(crate::proofs::LinkLemmas::strong_pair))]
pub fn is_linked_pair(symbols: &Symbols, field: &Field, one: &Term, other: &Term) -> bool
    requires { field.now.form.terms ≡ one.now ∷ other.now ∷ [] }
    ensures { result ≡ spec.is_linked symbols.now field.now }
{
    if is_suffixed(field.role.suffix) {
        return true;
    }
    if !is_of_weak(symbols, one) && !is_of_weak(symbols, other) {
        return false;
    }
    leaves_weak(symbols, &field.form)
}

/// Whether a weak symbol is left is what the form says in which labels of one section that cancel
/// are replaced by their places.
#[tactic(auto, using(crate::proofs::LinkLemmas::weak_are_left))]
pub fn settled_forms_tell_weak()
    ensures { spec.WeakAreLeft }
{}
