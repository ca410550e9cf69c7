//! From the field of a direct jump or call to its target.

ghost use Rattle.std.specs.Prelude.{◌≡◌, ◌<◌, ◌^◌, ◌||◌, false, slice_get, option_map, IfOk, IfSome};
ghost use Rattle.std.specs.Option.{option_and_then};
ghost use Rattle.assigned_forms.specs.Expanding.{is_assigned, names_assigned};
ghost use Rattle.flow_graph.specs.Targets as spec;
ghost use Rattle.flow_graph.specs.Nodes.{item_target};

use crate::fields::FinalForms;
use crate::landing::item_at;
use crate::targets::Target;
use asm_base::NoMemory;
use asm_expr::{Linear, SymId, Term, copied_form};
use asm_frags::{Field, own_place};
use asm_symbols::{Meaning, Symbols, is_weak};
use assigned_forms::expansions_are_exact;
use code_functions::{CodeItem, Function};
use std::alloc::Global;
use x86_insn::Suffix;

/// Whether the term is of a symbol, and not of the place of the field.
#[inline(always)]
fn is_of_symbol(term: &Term) -> bool
    ensures { result ≡ spec.is_of_symbol term.now }
{
    term.symbol.index() != own_place().index()
}

/// The one symbol of a form, from the place of its field on: it alone, once, and no number.
fn lone_symbol(form: &Linear) -> Option<SymId>
    ensures { result ≡ spec.lone_symbol form.now }
{
    if form.constant() != 0 {
        return None;
    }
    let terms = form.terms();
    let mut found: Option<SymId> = None;
    for term in terms {
        if is_of_symbol(term) {
            if found.is_some() || term.coefficient != 1 {
                return None;
            }
            found = Some(term.symbol);
        }
    }
    found
}

/// Whether the term is of an assigned symbol.
fn is_assigned(symbols: &Symbols, term: &Term) -> bool
    ensures { result ≡ is_assigned symbols.now term.now }
{
    match symbols.as_slice().get(term.symbol.index() as usize) {
        Some(symbol) => matches!(symbol.meaning, Meaning::Assigned(_)),
        None => false,
    }
}

/// Whether the form names an assigned symbol.
fn names_assigned(symbols: &Symbols, form: &Linear) -> bool
    ensures { result ≡ names_assigned symbols.now form.now }
{
    form.terms().iter().any(|term| is_assigned(symbols, term))
}

/// Whether the symbol at the index is weak.
fn is_weak_at(symbols: &Symbols, index: usize) -> bool
    ensures { result ≡ spec.is_weak_at symbols.now index }
{
    match symbols.as_slice().get(index) {
        Some(symbol) => is_weak(symbol.binding),
        None => false,
    }
}

/// Whether the form names a weak symbol.
fn names_weak(symbols: &Symbols, form: &Linear) -> bool
    ensures { result ≡ spec.names_weak symbols.now form.now }
{
    form.terms()
        .iter()
        .any(|term| is_weak_at(symbols, term.symbol.index() as usize))
}

/// Whether `@PLT` is said of the symbol.
#[inline(always)]
fn by_plt(suffix: Option<Suffix>) -> bool
    ensures { result ≡ spec.by_plt suffix }
{
    matches!(suffix, Some(Suffix::Plt))
}

/// Whether another object may put its own definition in place of what the form names: `@PLT` is said
/// of it, or it is weak.
fn is_preemptible(symbols: &Symbols, suffix: Option<Suffix>, form: &Linear) -> bool
    ensures { result ≡ (spec.by_plt suffix || spec.names_weak symbols.now form.now) }
{
    by_plt(suffix) || names_weak(symbols, form)
}

/// The target that is this item of the function, or else no label of it.
#[inline(always)]
fn label_target(preemptible: bool, item: Option<usize>) -> Target
    requires { IfSome item (λ at. at < 2 ^ 32) }
    ensures { result ≡ spec.label_target preemptible item }
{
    match item {
        Some(item) => Target::Inside {
            item: item as u32,
            preemptible,
        },
        None => Target::Outside,
    }
}

/// What a symbol of this meaning leads to.
fn meaning_target(function: &Function, preemptible: bool, meaning: &Meaning) -> Target
    ensures { result ≡ spec.meaning_target function.now.section function.now.items.now
        preemptible meaning.now }
{
    match meaning {
        Meaning::Label(spot) => {
            if spot.place.section == function.section {
                label_target(preemptible, item_at(function.items, spot.place.place))
            } else {
                Target::Outside
            }
        },
        Meaning::Undefined | Meaning::Common { .. } | Meaning::Space(_) | Meaning::Assigned(_) =>
            Target::Outside,
    }
}

/// What the symbol leads to, if there is one.
fn symbol_target(
    function: &Function,
    symbols: &Symbols,
    preemptible: bool,
    symbol: Option<SymId>,
) -> Target
    ensures { result ≡ spec.symbol_target symbols.now function.now.section
        function.now.items.now preemptible symbol }
{
    match symbol {
        Some(id) => match symbols.as_slice().get(id.index() as usize) {
            Some(symbol) => meaning_target(function, preemptible, &symbol.meaning),
            None => Target::Unknown,
        },
        None => Target::Unknown,
    }
}

/// What a field leads to whose form names assigned symbols.
#[inline(never)]
#[tactic(auto, unfolding(crate::specs::Targets::field_target))]
fn assigned_target(
    alloc: Global,
    function: &Function,
    forms: &FinalForms,
    field: &Field,
) -> Result<Target, NoMemory>
    ensures { IfOk result (λ target. target ≡ spec.field_target forms.now.symbols.now
        function.now.section function.now.items.now field.now) }
{
    let symbols = forms.symbols;
    let mut expanded = copied_form(alloc, &field.form)?;
    forms.expansions.expand(alloc, symbols, &mut expanded)?;
    let mut left = copied_form(alloc, &field.form)?;
    forms.linked.expand_linked(alloc, symbols, &mut left)?;
    let preemptible = is_preemptible(symbols, field.role.suffix, &left);
    Ok(symbol_target(function, symbols, preemptible, lone_symbol(&expanded)))
}

/// What a field leads to whose form names no assigned symbol.
fn plain_target(function: &Function, symbols: &Symbols, field: &Field) -> Target
    requires { names_assigned symbols.now field.now.form ≡ false }
    ensures { result ≡ spec.field_target symbols.now function.now.section
        function.now.items.now field.now }
{
    expansions_are_exact();
    let preemptible = is_preemptible(symbols, field.role.suffix, &field.form);
    symbol_target(function, symbols, preemptible, lone_symbol(&field.form))
}

/// What a field leads to.
fn field_target(
    alloc: Global,
    function: &Function,
    forms: &FinalForms,
    field: &Field,
) -> Result<Target, NoMemory>
    ensures { IfOk result (λ target. target ≡ spec.field_target forms.now.symbols.now
        function.now.section function.now.items.now field.now) }
{
    if names_assigned(forms.symbols, &field.form) {
        return assigned_target(alloc, function, forms, field);
    }
    Ok(plain_target(function, forms.symbols, field))
}

/// The field of this number.
#[inline(always)]
fn field_of<'a>(fields: &'a [Field], number: Option<u32>) -> Option<&'a Field>
    ensures { option_map (λ field. field.now) result
        ≡ option_and_then (slice_get fields.now) number }
{
    match number {
        Some(number) => fields.get(number as usize),
        None => None,
    }
}

/// The target that an item has by its field.
pub(crate) fn item_target(
    alloc: Global,
    function: &Function,
    forms: &FinalForms,
    item: &CodeItem,
) -> Result<Target, NoMemory>
    ensures { IfOk result (λ target. target ≡ item_target forms.now.symbols.now
        function.now.section forms.now.fields.now function.now.items.now item.now) }
{
    match field_of(forms.fields, item.field) {
        Some(field) => field_target(alloc, function, forms, field),
        None => Ok(Target::Unknown),
    }
}
