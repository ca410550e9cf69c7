//! What holds of every symbol map and of every call.

ghost use Rattle.std.specs.Prelude.{◌≡◌, true, ℕ, List, Ok, Err, Option, Some};
ghost use Rattle.asm_expr.specs.declared.naming.Name.{Name as NameValue};
ghost use Rattle.asm_expr.specs.Forms.{Form};
ghost use Rattle.asm_symbols.specs.declared.entries.Symbol.{Symbol as SymbolEntry};
ghost use Rattle.asm_symbols.specs.declared.entries.Definition.{Definition as DefinitionValue};
ghost use Rattle.asm_symbols.specs.declared.entries.Meaning.{Meaning as MeaningValue};
ghost use Rattle.asm_symbols.specs.declared.entries.Binding.{Binding as BindingValue};
ghost use Rattle.asm_symbols.specs.declared.entries.Binding.TheVariants.{Local, Global, Weak};
ghost use Rattle.asm_symbols.specs.declared.entries.Kind.{Kind as KindValue};
ghost use Rattle.asm_symbols.specs.declared.entries.Visibility.{Visibility as VisibilityValue};
ghost use Rattle.asm_base.specs.declared.causes.SymCause.TheVariants.{BadSymbolUse};
ghost use Rattle.asm_symbols.specs.SymbolMap.{SymbolMap, names, with_symbol};
ghost use Rattle.asm_symbols.specs.Interning.{is_within_limits, named, interned, with_file};
ghost use Rattle.asm_symbols.specs.Counting.{next_named};
ghost use Rattle.asm_symbols.specs.Defining.{defined};
ghost use Rattle.asm_symbols.specs.Assigning.{with_form, Leads, NoFormLeadsBack};
ghost use Rattle.asm_symbols.specs.LeadsBack.{leads_back};
ghost use Rattle.asm_symbols.specs.Attributes.{bound_as, bound, with_kind, with_next_size, with_visibility};
ghost use Rattle.asm_symbols.specs.Order.{KeepsOrder};
ghost use Rattle.asm_symbols.specs.Sound.{AreApart, AreFound, AreCounted};

use crate::symbol_map::Symbols;

/// No two symbols have one name, and each is found by its own.
pub fn names_are_apart(map: &Symbols)
    ensures apart { AreApart (names map.now.symbols) }
    ensures found { AreFound (names map.now.symbols) }
{
    let _ = &map.index;
}

/// A call that names a symbol or a file where there is room for it keeps the limits.
#[tactic(auto, unfolding(crate::specs::Interning::named, crate::specs::Interning::with_file, crate::specs::Counting::next_named))]
pub fn limits_are_kept()
    ensures name_of { (map made : SymbolMap) (name : NameValue) (at : ℕ)
        → is_within_limits map ≡ true → named map name ≡ Ok (made, at)
        → is_within_limits made ≡ true }
    ensures numeric_next { (map made : SymbolMap) (number at : ℕ)
        → is_within_limits map ≡ true → next_named map number ≡ Ok (made, at)
        → is_within_limits made ≡ true }
    ensures file { (map made : SymbolMap) (name : NameValue)
        → is_within_limits map ≡ true → with_file map name ≡ Ok made
        → is_within_limits made ≡ true }
{}

/// The instances of a numeric label that are counted are labels.
pub fn counted_are_labels(map: &Symbols)
    ensures { AreCounted map.now.symbols map.now.counts }
{
    let _ = &map.index;
}

/// No symbol's form leads back to it.
pub fn no_form_leads_back(map: &Symbols)
    ensures { NoFormLeadsBack map.now.symbols }
{
    let _ = &map.index;
}

/// Every call keeps the order in which symbols were first named.
#[tactic(auto, unfolding(crate::specs::Interning::named, crate::specs::Interning::interned, crate::specs::Interning::with_file, crate::specs::Counting::next_named))]
pub fn order_is_kept()
    ensures name_of { (map made : SymbolMap) (name : NameValue) (at : ℕ)
        → named map name ≡ Ok (made, at) → KeepsOrder map made }
    ensures numeric_next { (map made : SymbolMap) (number at : ℕ)
        → next_named map number ≡ Ok (made, at) → KeepsOrder map made }
    ensures intern { (map : SymbolMap) (name : NameValue) → KeepsOrder map (interned map name) }
    ensures file { (map made : SymbolMap) (name : NameValue)
        → with_file map name ≡ Ok made → KeepsOrder map made }
    ensures define { (map made : SymbolMap) (at : ℕ) (what : DefinitionValue)
        → defined map at what ≡ Ok made → KeepsOrder map made }
    ensures assign { (map : SymbolMap) (at : ℕ) (form : Form)
        → KeepsOrder map (with_form map at form) }
    ensures bind { (map made : SymbolMap) (at : ℕ) (binding : BindingValue)
        → bound map at binding ≡ Ok made → KeepsOrder map made }
    ensures kind { (map : SymbolMap) (at : ℕ) (kind : KindValue)
        → KeepsOrder map (with_symbol (with_kind kind) map at) }
    ensures size { (map : SymbolMap) (at : ℕ) (size : Form)
        → KeepsOrder map (with_next_size size map at) }
    ensures visibility { (map : SymbolMap) (at : ℕ) (visibility : VisibilityValue)
        → KeepsOrder map (with_symbol (with_visibility visibility) map at) }
{}

/// The program that decides whether a form leads back to a symbol answers true exactly where it
/// does.
pub fn leads_is_decided()
    ensures back { (symbols : List SymbolEntry) (form : Form) (at : ℕ)
        → leads_back symbols form at ≡ true → Leads symbols form at }
    ensures leads { (symbols : List SymbolEntry) (form : Form) (at : ℕ)
        → Leads symbols form at → leads_back symbols form at ≡ true }
{}

/// Weak wins over global in either order, and neither goes with local.
pub fn weak_wins()
    ensures weak_last { (meaning : MeaningValue) → bound_as meaning (Some Global) Weak ≡ Ok Weak }
    ensures global_last { (meaning : MeaningValue) → bound_as meaning (Some Weak) Global ≡ Ok Weak }
    ensures local_last { (meaning : MeaningValue)
        → (bound_as meaning (Some Global) Local ≡ Err BadSymbolUse)
        × (bound_as meaning (Some Weak) Local ≡ Err BadSymbolUse) }
    ensures local_first { (meaning : MeaningValue)
        → (bound_as meaning (Some Local) Global ≡ Err BadSymbolUse)
        × (bound_as meaning (Some Local) Weak ≡ Err BadSymbolUse) }
    ensures again { (meaning : MeaningValue) (before : Option BindingValue)
        → (binding made : BindingValue)
        → bound_as meaning before binding ≡ Ok made
        → bound_as meaning (Some made) binding ≡ Ok made }
{}
