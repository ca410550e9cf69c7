//! Linear forms: symbols with coefficients, and a constant, all modulo 2^64.

ghost use Rattle.std.specs.Prelude.{◌≡◌, ◌-◌, ◌^◌, false, [], ◌∷◌, IfOk, IsTrue};
ghost use Rattle.std.specs.List.{list_all};
ghost use Rattle.asm_expr.specs.Forms.{is_kept, term_of, constant_form, symbol_form, joined};

use crate::ids::SymId;
use smallvec::SmallVec;
use std::alloc::{AllocError, AllocFailed, Global};
use std::marker::Model;

/// A symbol and how often it counts, modulo 2^64.
#[derive(Clone, Copy)]
pub struct Term {
    pub symbol: SymId,
    pub coefficient: u64,
}

impl Default for Term {
    ghost is_default = { λ term. (term.symbol ≡ 0) × (term.coefficient ≡ 0) };

    fn default() -> Term {
        Term {
            symbol: SymId::new(0),
            coefficient: 0,
        }
    }
}

/// A sum of symbols with coefficients, none of them 0, and a constant. Two terms need no allocation
/// of their own.
#[derive(Drop)]
pub struct Linear {
    pub(crate) terms: SmallVec<Term, 2>,
    pub(crate) constant: u64,
}

impl Model for Linear {
    ghost use Rattle.asm_expr.specs.Forms.{Form, is_kept};
    ghost use Rattle.std.specs.Prelude.{IsTrue};
    ghost use Rattle.std.specs.List.{list_all};

    ghost Value = { Form };

    ghost view = { λ form. record { terms = form.terms.items; constant = form.constant } };

    ghost invariant = { λ form. IsTrue (list_all is_kept form.terms.items) };
}

impl Linear {
    /// The symbols with their coefficients, in the order in which they were mentioned.
    pub fn terms(&self) -> &[Term]
        ensures terms { result.now ≡ self.now.terms }
        ensures kept { IsTrue (list_all is_kept result.now) }
    {
        self.terms.as_slice()
    }

    /// The constant.
    pub fn constant(&self) -> u64
        ensures { result ≡ self.now.constant }
    {
        self.constant
    }
}

/// A form in an allocation of its own: what holds it stays small, where few of many hold one.
#[derive(Drop)]
pub struct BoxedForm {
    form: Box<Linear>,
}

impl Model for BoxedForm {
    ghost use Rattle.asm_expr.specs.Forms.{Form};

    ghost Value = { Form };

    ghost view = { λ boxed. boxed.form.value };
}

impl BoxedForm {
    ghost use Rattle.std.specs.Prelude.{◌≡◌, IfOk};

    /// The form, in an allocation.
    pub fn new(alloc: Global, form: Linear) -> Result<BoxedForm, AllocError>
        ensures { IfOk result (λ boxed. boxed ≡ form) }
    {
        Ok(BoxedForm {
            form: Box::new(alloc, form)?,
        })
    }

    /// The form.
    pub fn as_form(&self) -> &Linear
        ensures { result.now ≡ self.now }
    {
        &self.form
    }
}

/// The form of a number.
pub fn constant_form(alloc: Global, constant: u64) -> Linear
    ensures { result ≡ constant_form constant }
{
    Linear {
        terms: SmallVec::new(alloc),
        constant,
    }
}

/// The form of a symbol, once.
pub fn symbol_form(alloc: Global, symbol: SymId) -> Result<Linear, AllocFailed<Term>>
    ensures { IfOk result (λ form. form ≡ symbol_form symbol) }
{
    let mut terms = SmallVec::new(alloc);
    terms.push(Term {
        symbol,
        coefficient: 1,
    })?;
    Ok(Linear { terms, constant: 0 })
}

/// The form of a symbol, once, and a number.
pub fn symbol_and_number(
    alloc: Global,
    symbol: SymId,
    number: u64,
) -> Result<Linear, AllocFailed<Term>>
    ensures { IfOk result (λ form. form ≡ joined false (symbol_form symbol) (constant_form number)) }
{
    let mut form = symbol_form(alloc, symbol)?;
    form.constant = number;
    Ok(form)
}

/// The first symbol less the second, which is another one.
pub(crate) fn symbols_apart(
    alloc: Global,
    one: SymId,
    other: SymId,
) -> Result<Linear, AllocFailed<Term>>
    ensures { IfOk result (λ form. form
        ≡ record { terms = term_of one 1 ∷ term_of other (2 ^ 64 - 1) ∷ []; constant = 0 }) }
{
    let mut terms = SmallVec::new(alloc);
    terms.push(Term {
        symbol: one,
        coefficient: 1,
    })?;
    terms.push(Term {
        symbol: other,
        coefficient: u64::MAX,
    })?;
    Ok(Linear { terms, constant: 0 })
}

/// A form once more.
pub fn copied_form(alloc: Global, form: &Linear) -> Result<Linear, AllocError>
    ensures { IfOk result (λ copy. copy ≡ form.now) }
{
    let list = form.terms.as_slice();
    let mut terms: SmallVec<Term, 2> = SmallVec::new(alloc);
    for term in list {
        terms.push(*term)?;
    }
    Ok(Linear {
        terms,
        constant: form.constant,
    })
}
