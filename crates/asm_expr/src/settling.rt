//! Labels that cancel: those of one stretch whose coefficients sum to 0.

ghost use Rattle.std.specs.Prelude.{◌≡◌, ◌<◌, length, map, Ok, IfOk, IsTrue};
ghost use Rattle.std.specs.List.{list_all};
ghost use Rattle.asm_base.specs.Refusals.{Returns};
ghost use Rattle.asm_expr.specs.Settled.{spot_of, counted_in, stretch_sum, cancelled_number, put_one, put_all, cannot_cancel, nothing_cancels, settled, constant_left};
ghost use Rattle.asm_expr.specs.Forms.{wrapped, is_kept, constant_form};

use crate::faults::ExprFault;
use crate::forms::{Linear, Term, constant_form};
use crate::knowledge::{Known, Look};
use smallvec::SmallVec;
use std::alloc::{AllocFailed, Global};

/// A label in a form: its stretch, its place in that, and how often it counts.
#[derive(Clone, Copy, Default)]
pub(crate) struct Spot {
    pub stretch: u64,
    pub at: u64,
    pub coefficient: u64,
}

/// The term as a label, if it is one.
fn spot_of<K: Known>(known: &K, term: &Term) -> Option<Spot>
    ensures { result ≡ spot_of (K.told known.now) term.now }
{
    match known.look(term.symbol) {
        Look::Label { stretch, at } => Some(Spot {
            stretch,
            at,
            coefficient: term.coefficient,
        }),
        _ => None,
    }
}

/// The terms as labels, each looked up once.
fn spots_of<K: Known>(
    alloc: Global,
    known: &K,
    terms: &[Term],
) -> Result<SmallVec<Option<Spot>, 2>, AllocFailed<Option<Spot>>>
    ensures { IfOk result (λ spots. spots.items ≡ map (spot_of (K.told known.now)) terms.now) }
{
    let mut spots = SmallVec::new(alloc);
    for term in terms {
        spots.push(spot_of(known, term))?;
    }
    Ok(spots)
}

/// How often the label counts in this stretch.
fn counted_in(stretch: u64, spot: Option<Spot>) -> u64
    ensures { result ≡ counted_in stretch spot }
{
    match spot {
        Some(spot) if spot.stretch == stretch => spot.coefficient,
        _ => 0,
    }
}

/// How often the labels of a stretch count.
fn stretch_sum(stretch: u64, spots: &[Option<Spot>]) -> u64
    ensures { result ≡ wrapped (stretch_sum stretch spots.now) }
{
    let mut sum: u64 = 0;
    for spot in spots {
        sum = sum.wrapping_add(counted_in(stretch, *spot));
    }
    sum
}

/// What stands for the label at this place: its number, where those of its stretch cancel.
fn cancelled_number(spots: &[Option<Spot>], spot: Option<Spot>) -> Option<u64>
    ensures { result ≡ cancelled_number spots.now spot }
{
    let spot = spot?;
    if stretch_sum(spot.stretch, spots) == 0 {
        Some(spot.at)
    } else {
        None
    }
}

/// The form and one term more, or its number in place of it.
fn put_one(made: Linear, term: Term, number: Option<u64>) -> Result<Linear, AllocFailed<Term>>
    requires { IsTrue (is_kept term) }
    ensures { IfOk result (λ form. form ≡ put_one made term number) }
{
    let Linear {
        mut terms,
        mut constant,
    } = made;
    match number {
        None => terms.push(term)?,
        Some(number) => constant = constant.wrapping_add(term.coefficient.wrapping_mul(number)),
    }
    Ok(Linear { terms, constant })
}

/// Whether nothing can cancel: there is no term, or one that counts.
fn cannot_cancel(terms: &[Term]) -> bool
    ensures { result ≡ cannot_cancel terms.now }
{
    match terms {
        [] => true,
        [only] => only.coefficient != 0,
        _ => false,
    }
}

/// The form of the terms and the constant, where numbers stand for the labels that cancel.
fn put_all<K: Known>(
    alloc: Global,
    known: &K,
    mut terms: SmallVec<Term, 2>,
    constant: u64,
) -> Result<Linear, ExprFault>
    requires { IsTrue (list_all is_kept terms.items) }
    ensures { let told = K.told known.now in let spots = map (spot_of told) terms.items in
        Returns result (Ok (put_all spots told (constant_form constant) terms.items)) }
{
    let spots = spots_of(alloc, known, terms.as_slice())?;
    let mut made = constant_form(alloc, constant);
    for spot in spots.as_slice() {
        let term = terms.remove(0);
        made = put_one(made, term, cancelled_number(spots.as_slice(), *spot))?;
    }
    Ok(made)
}

/// How often the labels of a stretch count in the terms.
fn counted_among<K: Known>(known: &K, stretch: u64, terms: &[Term]) -> u64
    ensures { result ≡ wrapped (stretch_sum stretch (map (spot_of (K.told known.now)) terms.now)) }
{
    let mut sum: u64 = 0;
    for term in terms {
        sum = sum.wrapping_add(counted_in(stretch, spot_of(known, term)));
    }
    sum
}

/// What stands for one of the terms: its number, where the labels of its stretch cancel.
fn cancelled_among<K: Known>(known: &K, terms: &[Term], term: &Term) -> Option<u64>
    ensures { result ≡ cancelled_number (map (spot_of (K.told known.now)) terms.now)
        (spot_of (K.told known.now) term.now) }
{
    let spot = spot_of(known, term)?;
    if counted_among(known, spot.stretch, terms) == 0 {
        Some(spot.at)
    } else {
        None
    }
}

/// Whether no label cancels.
fn nothing_cancels<K: Known>(known: &K, terms: &[Term]) -> bool
    ensures { result ≡ nothing_cancels (K.told known.now) terms.now }
{
    terms
        .iter()
        .all(|term| cancelled_among(known, terms, term).is_none())
}

/// The form where the labels of each stretch that cancel are replaced by their numbers.
#[tactic(auto, unfolding(crate::specs::Settled::settled))]
pub fn settled<K: Known>(alloc: Global, known: &K, form: Linear) -> Result<Linear, ExprFault>
    ensures { Returns result (Ok (settled (K.told known.now) form)) }
{
    if cannot_cancel(form.terms.as_slice()) {
        return Ok(form);
    }
    if nothing_cancels(known, form.terms.as_slice()) {
        return Ok(form);
    }
    let Linear { terms, constant } = form;
    put_all(alloc, known, terms, constant)
}

/// The constant of the settled form, where no symbol is left in it. It takes no memory.
pub fn settled_value<K: Known>(known: &K, form: &Linear) -> Option<u64>
    ensures { result ≡ constant_left (settled (K.told known.now) form.now) }
{
    let terms = form.terms();
    let mut constant = form.constant();
    for term in terms {
        let number = cancelled_among(known, terms, term)?;
        constant = constant.wrapping_add(term.coefficient.wrapping_mul(number));
    }
    Some(constant)
}
