//! The expanded forms of all assigned symbols, as layouts and objects ask for them.

ghost use Rattle.std.specs.Prelude.{◌≡◌};
ghost use Rattle.std.specs.List.{list_all};
ghost use Rattle.assigned_forms.specs.Expanding.{is_plain, stands_for_itself};

use crate::expanding::{MadeForms, plus_replaced};
use crate::opened::{form_of, names_assigned, own_form_at, whole};
use asm_base::NoMemory;
use asm_expr::{Linear, constant_form};
use asm_symbols::{SymId, Symbol, Symbols, leads_is_decided, no_form_leads_back};
use std::alloc::Global;
use std::marker::Model;

/// Whether the symbol is no assigned one, or its form names none.
fn stands_for_itself(symbols: &Symbols, symbol: &Symbol) -> bool
    ensures { result ≡ stands_for_itself symbols.now symbol.now }
{
    match form_of(&symbol.meaning) {
        Some(form) => !names_assigned(whole(symbols), form),
        None => true,
    }
}

/// Whether no form of a symbol names an assigned symbol.
fn all_stand(symbols: &Symbols) -> bool
    ensures { result ≡ list_all (stands_for_itself symbols.now) symbols.now.symbols }
{
    symbols
        .as_slice()
        .iter()
        .all(|symbol| stands_for_itself(symbols, symbol))
}

/// Whether the symbol is no assigned one.
fn is_plain(symbol: &Symbol) -> bool
    ensures { result ≡ is_plain symbol.now }
{
    form_of(&symbol.meaning).is_none()
}

/// Whether no symbol is an assigned one.
fn all_plain(symbols: &Symbols) -> bool
    ensures { result ≡ list_all is_plain symbols.now.symbols }
{
    symbols.as_slice().iter().all(|symbol| is_plain(symbol))
}

/// Where the expanded forms are found.
#[derive(Drop)]
enum Forms<'a> {
    /// No symbol is an assigned one: there are none.
    Absent,
    /// No form names an assigned symbol, as in most sources: each is its own expanded form.
    Own(&'a Symbols),
    /// In a list that has one for each assigned symbol.
    Made(MadeForms<'a>),
}

/// The expanded forms of all assigned symbols: for each symbol none, or its expanded form.
#[derive(Drop)]
pub struct Expansions<'a> {
    forms: Forms<'a>,
}

impl<'a> Model for Expansions<'a> {
    ghost use Rattle.std.specs.Prelude.{List, Option};
    ghost use Rattle.asm_expr.specs.Forms.{Form};
    ghost use Rattle.assigned_forms.specs.FoundForms.{forms_there};

    ghost Value = { List (Option Form) };

    ghost view = { λ expansions. forms_there expansions.forms };
}

impl<'a> Expansions<'a> {
    ghost use Rattle.std.specs.Prelude.{◌≡◌, true, option_map, Some, IfOk, OnOk};
    ghost use Rattle.asm_symbols.specs.Assigning.{NoFormLeadsBack};
    ghost use Rattle.asm_symbols.specs.SymbolMap.{SymbolMap};
    ghost use Rattle.assigned_forms.specs.Expanding.{names_assigned, names_expanded, expanded, entry_at, AreExpansions};
    ghost use Rattle.assigned_forms.specs.Linked.{linked_map, linked};

    /// The expanded forms of the symbols.
    #[tactic(auto, using(crate::proofs::OwnForms::own_expansions, crate::proofs::OwnForms::no_expansions))]
    pub fn new(alloc: Global, symbols: &'a Symbols) -> Result<Expansions<'a>, NoMemory>
        ensures { IfOk result (AreExpansions symbols.now) }
    {
        if all_plain(symbols) {
            return Ok(Expansions {
                forms: Forms::Absent,
            });
        }
        if all_stand(symbols) {
            return Ok(Expansions {
                forms: Forms::Own(symbols),
            });
        }
        Ok(made(MadeForms::new(alloc, whole(symbols))?))
    }

    /// The expanded form of the symbol at the index, where it is an assigned one.
    #[tactic(auto, using(crate::proofs::OwnForms::own_entry))]
    pub(crate) fn entry_at(&self, at: usize) -> Option<&Linear>
        ensures { option_map (λ form. form.now) result ≡ entry_at self.now at }
    {
        match &self.forms {
            Forms::Absent => None,
            Forms::Own(symbols) => own_form_at(symbols, at),
            Forms::Made(made) => made.entry_at(at),
        }
    }

    /// The expanded form of the symbol, where it is an assigned one.
    #[inline(always)]
    pub fn of(&self, id: SymId) -> Option<&Linear>
        ensures { option_map (λ form. form.now) result ≡ entry_at self.now id }
    {
        self.entry_at(id.index() as usize)
    }

    /// The sum of the terms and the constant of a form that names assigned symbols, with their
    /// expanded forms in place of these.
    fn sum_of(&self, alloc: Global, form: &Linear) -> Result<Linear, NoMemory>
        ensures { (symbols : SymbolMap) → NoFormLeadsBack symbols.symbols
            → AreExpansions symbols self.now → names_assigned symbols form.now ≡ true
            → IfOk result (λ made. made ≡ expanded symbols form.now) }
    {
        leads_is_decided();
        let terms = form.terms();
        let mut made = constant_form(alloc, form.constant());
        for term in terms {
            made = plus_replaced(alloc, made, term, self.of(term.symbol))?;
        }
        Ok(made)
    }

    /// Whether the form names a symbol whose expanded form is there.
    #[tactic(auto, using(crate::proofs::OwnForms::names_absent))]
    fn names_expanded(&self, form: &Linear) -> bool
        ensures { result ≡ names_expanded self.now form.now }
    {
        if let Forms::Absent = &self.forms {
            return false;
        }
        form.terms()
            .iter()
            .any(|term| self.of(term.symbol).is_some())
    }

    /// Expands a form in place that names assigned symbols.
    #[inline(never)]
    fn replace(&self, alloc: Global, form: &mut Linear) -> Result<(), NoMemory>
        ensures { (symbols : SymbolMap) → NoFormLeadsBack symbols.symbols
            → AreExpansions symbols self.now → names_assigned symbols form.old ≡ true
            → OnOk result (form.new ≡ expanded symbols form.old) }
    {
        *form = self.sum_of(alloc, form)?;
        Ok(())
    }

    /// Expands the form in place, for all symbols of which these are the expanded forms.
    #[inline(always)]
    fn expand_any(&self, alloc: Global, form: &mut Linear) -> Result<(), NoMemory>
        ensures { (symbols : SymbolMap) → NoFormLeadsBack symbols.symbols
            → AreExpansions symbols self.now → OnOk result (form.new ≡ expanded symbols form.old) }
    {
        if self.names_expanded(form) {
            return self.replace(alloc, form);
        }
        Ok(())
    }

    /// Expands the form in place. One that names no assigned symbol is left as it is.
    #[inline(always)]
    pub fn expand(
        &self,
        alloc: Global,
        symbols: &Symbols,
        form: &mut Linear,
    ) -> Result<(), NoMemory>
        requires { AreExpansions symbols.now self.now }
        ensures { OnOk result (form.new ≡ expanded symbols.now form.old) }
    {
        no_form_leads_back(symbols);
        self.expand_any(alloc, form)
    }

    /// Expands the form of a field in place: all assigned symbols but weak aliases, where these
    /// stay in the expanded forms too.
    #[inline(always)]
    #[tactic(auto, using(crate::proofs::LinkedLemmas::linked_leads_forward), unfolding(crate::specs::Linked::linked))]
    pub fn expand_linked(
        &self,
        alloc: Global,
        symbols: &Symbols,
        form: &mut Linear,
    ) -> Result<(), NoMemory>
        requires { AreExpansions (linked_map symbols.now) self.now }
        ensures { OnOk result (form.new ≡ linked symbols.now form.old) }
    {
        no_form_leads_back(symbols);
        self.expand_any(alloc, form)
    }
}

/// Expanded forms that were made.
pub(crate) fn made<'a>(forms: MadeForms<'a>) -> Expansions<'a>
    ensures { result ≡ forms.entry }
{
    Expansions {
        forms: Forms::Made(forms),
    }
}
