//! What expansions come to.

ghost use Rattle.std.specs.Prelude.{◌≡◌, ℕ, true, false, Some, slice_get};
ghost use Rattle.asm_expr.specs.Forms.{Form, symbol_form};
ghost use Rattle.asm_symbols.specs.declared.entries.Symbol.{Symbol as TheSymbol};
ghost use Rattle.asm_symbols.specs.SymbolMap.{SymbolMap};
ghost use Rattle.asm_symbols.specs.Assigning.{NoFormLeadsBack};
ghost use Rattle.assigned_forms.specs.Expanding.{replacement, with_replaced, names_assigned, expanded};
ghost use Rattle.assigned_forms.specs.Linked.{is_weak_alias, linked, NamesLinked};

use asm_symbols::leads_is_decided;

/// Where no form leads back to its symbol, an expanded form names no assigned symbol, and is the
/// sum of the form's terms with each symbol replaced by the expansion of its own form.
pub fn expansions_are_exact()
    ensures left { (symbols : SymbolMap) (form : Form) → NoFormLeadsBack symbols.symbols
        → names_assigned symbols (expanded symbols form) ≡ false }
    ensures sum { (symbols : SymbolMap) (form : Form) → NoFormLeadsBack symbols.symbols
        → names_assigned symbols form ≡ true
        → expanded symbols form ≡ with_replaced (replacement (expanded symbols) symbols) form }
    ensures none { (symbols : SymbolMap) (form : Form) → names_assigned symbols form ≡ false
        → expanded symbols form ≡ form }
{
    leads_is_decided();
}

/// A weak alias stays in the form of a field, and no other assigned symbol does, where no form leads
/// back to its symbol.
pub fn weak_aliases_stay()
    ensures stays { (symbols : SymbolMap) (index : ℕ) (symbol : TheSymbol)
        → slice_get symbols.symbols index ≡ Some symbol → is_weak_alias symbols symbol ≡ true
        → linked symbols (symbol_form index) ≡ symbol_form index }
    ensures left { (symbols : SymbolMap) (form : Form) → NoFormLeadsBack symbols.symbols
        → NamesLinked symbols (linked symbols form) }
{
    leads_is_decided();
}
