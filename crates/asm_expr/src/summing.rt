//! Sums and differences of linear forms.

ghost use Rattle.std.specs.Prelude.{◌≡◌, ◌==◌, ◌<◌, ◌≤◌, length, map, IfOk};
ghost use Rattle.std.specs.List.{position_or_len};
ghost use Rattle.asm_expr.specs.Forms.{signed_term, scaled_term, with_term, with_terms, joined, plus_times};
ghost use Rattle.asm_expr.specs.Raised.{raised};

use crate::arithmetic::signed;
use crate::forms::{Linear, Term};
use crate::ids::SymId;
use smallvec::SmallVec;
use std::alloc::AllocFailed;

/// Where the symbol stands among the terms, or how many there are.
fn place_of(terms: &[Term], symbol: SymId) -> usize
    ensures value { result ≡ position_or_len (λ term. term.symbol == symbol) terms.now }
    ensures within { result ≤ length terms.now }
{
    for (index, term) in terms.iter().enumerate() {
        if term.symbol.index() == symbol.index() {
            return index;
        }
    }
    terms.len()
}

/// The terms where the one at this place counts so much more.
#[tactic(auto, using(crate::proofs::Terms::raised_out, crate::proofs::Terms::raised_in))]
fn raised(
    terms: SmallVec<Term, 2>,
    at: usize,
    by: u64,
) -> Result<SmallVec<Term, 2>, AllocFailed<Term>>
    requires { at < length terms.items }
    ensures { IfOk result (λ all. all.items ≡ raised terms.items at by) }
{
    let mut terms = terms;
    let Term {
        symbol,
        coefficient,
    } = terms.remove(at);
    let coefficient = coefficient.wrapping_add(by);
    if coefficient == 0 {
        return Ok(terms);
    }
    terms.insert(
        at,
        Term {
            symbol,
            coefficient,
        },
    )?;
    Ok(terms)
}

/// The terms and one more.
#[tactic(auto, using(crate::proofs::Terms::with_term_at))]
fn with_term(terms: SmallVec<Term, 2>, more: Term) -> Result<SmallVec<Term, 2>, AllocFailed<Term>>
    ensures { IfOk result (λ all. all.items ≡ with_term terms.items more) }
{
    let at = place_of(terms.as_slice(), more.symbol);
    if at < terms.len() {
        return raised(terms, at, more.coefficient);
    }
    if more.coefficient == 0 {
        return Ok(terms);
    }
    let mut terms = terms;
    terms.push(more)?;
    Ok(terms)
}

/// The term, or minus the term.
fn signed_term(minus: bool, term: &Term) -> Term
    ensures { result ≡ signed_term minus term.now }
{
    Term {
        symbol: term.symbol,
        coefficient: signed(minus, term.coefficient),
    }
}

/// The sum of two forms, of which the second is taken with this sign.
pub(crate) fn joined(minus: bool, one: Linear, other: Linear) -> Result<Linear, AllocFailed<Term>>
    ensures { IfOk result (λ form. form ≡ joined minus one other) }
{
    let Linear {
        mut terms,
        constant,
    } = one;
    let others = other.terms();
    for term in others {
        terms = with_term(terms, signed_term(minus, term))?;
    }
    Ok(Linear {
        terms,
        constant: constant.wrapping_add(signed(minus, other.constant())),
    })
}

/// The term so many times.
fn scaled_term(factor: u64, term: &Term) -> Term
    ensures { result ≡ scaled_term factor term.now }
{
    Term {
        symbol: term.symbol,
        coefficient: factor.wrapping_mul(term.coefficient),
    }
}

/// The form plus so many times another. Only want of memory refuses it.
#[tactic(auto, unfolding(crate::specs::Forms::plus_times))]
pub fn plus_times(made: Linear, factor: u64, other: &Linear) -> Result<Linear, AllocFailed<Term>>
    ensures { IfOk result (λ form. form ≡ plus_times made factor other.now) }
{
    let Linear {
        mut terms,
        constant,
    } = made;
    let others = other.terms();
    for term in others {
        terms = with_term(terms, scaled_term(factor, term))?;
    }
    Ok(Linear {
        terms,
        constant: constant.wrapping_add(factor.wrapping_mul(other.constant())),
    })
}
