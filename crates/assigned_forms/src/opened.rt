//! The forms of assigned symbols, where some of these count as undefined.

ghost use Rattle.std.specs.Prelude.{◌≡◌, false, length, slice_index_or, option_map};
ghost use Rattle.asm_symbols.specs.Assigning.{form_of, form_at, NoFormLeadsBack};
ghost use Rattle.assigned_forms.specs.Expanding.{is_assigned, names_assigned, terms_of};
ghost use Rattle.assigned_forms.specs.Opened.{opened};

use asm_expr::{Linear, Term};
use asm_symbols::{Meaning, Symbols, no_form_leads_back};

/// The symbols of a map, of which those that are marked count as undefined. Behind the marks none does.
#[derive(Clone, Copy)]
pub(crate) struct Opened<'a, 'b> {
    pub(crate) symbols: &'a Symbols,
    pub(crate) marks: &'b [bool],
}

/// The symbols as they are: none counts as undefined.
#[tactic(auto, using(crate::proofs::OpenedLemmas::none_opened))]
pub(crate) fn whole<'a>(symbols: &'a Symbols) -> Opened<'a, 'static>
    ensures { opened result.symbols.now result.marks.now ≡ symbols.now }
{
    Opened {
        symbols,
        marks: &[],
    }
}

/// The form of an assigned symbol.
pub(crate) fn form_of(meaning: &Meaning) -> Option<&Linear>
    ensures { option_map (λ form. form.now) result ≡ form_of meaning.now }
{
    match meaning {
        Meaning::Assigned(form) => Some(form.as_form()),
        _ => None,
    }
}

/// The form of the symbol at the index, where it is an assigned one.
pub(crate) fn own_form_at(symbols: &Symbols, at: usize) -> Option<&Linear>
    ensures { option_map (λ form. form.now) result ≡ form_at symbols.now.symbols at }
{
    match symbols.as_slice().get(at) {
        Some(symbol) => form_of(&symbol.meaning),
        None => None,
    }
}

/// How many symbols there are.
#[tactic(auto, using(crate::proofs::OpenedLemmas::opened_long))]
pub(crate) fn count_of(view: Opened) -> usize
    ensures { let all = opened view.entry.symbols.now view.entry.marks.now in
        result ≡ length all.symbols }
{
    view.symbols.len()
}

/// Whether the symbol at the index is marked.
fn is_marked(marks: &[bool], at: usize) -> bool
    ensures { result ≡ slice_index_or marks.now at false }
{
    marks.get(at).copied().unwrap_or(false)
}

/// The form of the symbol at the index, where it is an assigned one that is not marked.
#[tactic(auto, using(crate::proofs::OpenedLemmas::marked_form, crate::proofs::OpenedLemmas::unmarked_form))]
pub(crate) fn form_at<'a>(view: Opened<'a, '_>, at: usize) -> Option<&'a Linear>
    ensures { let all = opened view.entry.symbols.now view.entry.marks.now in
        option_map (λ form. form.now) result ≡ form_at all.symbols at }
{
    if is_marked(view.marks, at) {
        return None;
    }
    own_form_at(view.symbols, at)
}

/// The terms of the form of the symbol at the index, where it is an assigned one.
pub(crate) fn terms_at<'a>(view: Opened<'a, '_>, at: usize) -> &'a [Term]
    ensures { let all = opened view.entry.symbols.now view.entry.marks.now in
        result.now ≡ terms_of (form_at all.symbols at) }
{
    match form_at(view, at) {
        Some(form) => form.terms(),
        None => &[],
    }
}

/// Whether the term is of an assigned symbol.
fn is_assigned(view: Opened, term: &Term) -> bool
    ensures { let all = opened view.entry.symbols.now view.entry.marks.now in
        result ≡ is_assigned all term.now }
{
    form_at(view, term.symbol.index() as usize).is_some()
}

/// Whether the form names an assigned symbol.
pub(crate) fn names_assigned(view: Opened, form: &Linear) -> bool
    ensures { let all = opened view.entry.symbols.now view.entry.marks.now in
        result ≡ names_assigned all form.now }
{
    form.terms().iter().any(|term| is_assigned(view, term))
}

/// No form leads back to its symbol.
#[tactic(auto, using(crate::proofs::OpenedLemmas::none_leads_back))]
pub(crate) fn none_leads_back(view: Opened)
    ensures { let all = opened view.entry.symbols.now view.entry.marks.now in
        NoFormLeadsBack all.symbols }
{
    no_form_leads_back(view.symbols);
}
