//! What a symbol is known as, for the linear forms of expressions.

ghost use Rattle.std.specs.Prelude.{◌≡◌};
ghost use Rattle.asm_expr.specs.Knowledge.{told_by};
ghost use Rattle.asm_symbols.specs.Attributes.{is_weak};
ghost use Rattle.asm_symbols.specs.Looking.{form_told, symbol_told};

use crate::entries::{Binding, Meaning, Symbol};
use crate::symbol_map::Symbols;
use asm_expr::{Linear, Look, SymId};

/// Whether the binding is that of a weak symbol.
pub fn is_weak(binding: Option<Binding>) -> bool
    ensures { result ≡ is_weak binding }
{
    matches!(binding, Some(Binding::Weak))
}

/// What a symbol is known as that is assigned this form: of a weak one only a number is known.
fn look_of_form(form: &Linear, weak: bool) -> Look<'_>
    ensures { told_by result ≡ form_told form.now.terms weak form.now }
{
    if form.terms().is_empty() {
        Look::Constant(form.constant())
    } else if weak {
        Look::Absent
    } else {
        Look::Form(form)
    }
}

/// What the symbol is known as.
fn look_of(symbol: &Symbol) -> Look<'_>
    ensures { told_by result ≡ symbol_told symbol.now }
{
    match &symbol.meaning {
        Meaning::Label(spot) | Meaning::Space(spot) => Look::Label {
            stretch: spot.stretch,
            at: spot.at,
        },
        Meaning::Assigned(form) => look_of_form(form.as_form(), is_weak(symbol.binding)),
        Meaning::Undefined | Meaning::Common { .. } => Look::Absent,
    }
}

impl Symbols {
    ghost use Rattle.std.specs.Prelude.{◌≡◌};
    ghost use Rattle.asm_expr.specs.Knowledge.{told_by};
    ghost use Rattle.asm_symbols.specs.Looking.{told};

    /// What the symbol is known as.
    #[tactic(auto, unfolding(crate::specs::Looking::told))]
    pub fn look(&self, id: SymId) -> Look<'_>
        ensures { told_by result ≡ told self.now id }
    {
        match self.symbols.get(id.index() as usize) {
            Some(symbol) => look_of(symbol),
            None => Look::Absent,
        }
    }
}
