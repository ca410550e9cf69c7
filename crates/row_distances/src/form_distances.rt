//! From linear forms to the distances of rows.

ghost use Rattle.std.specs.Prelude.{◌≡◌, ◌<◌, ◌^◌, ◌++◌, ◌∷◌, [], ℕ, List, None, Some, IfOk, IfSome, OnOk};
ghost use Rattle.asm_expr.specs.Forms.{Form};
ghost use Rattle.asm_levels.specs.declared.distances.Distance.TheVariants as distance;
ghost use Rattle.asm_symbols.specs.SymbolMap.{SymbolMap};
ghost use Rattle.row_distances.specs.declared.places.OwnPlace.{OwnPlace as TheOwnPlace};
ghost use Rattle.row_distances.specs.FormDistances as spec;
ghost use Rattle.row_distances.specs.Pairs as pairs;
ghost use Rattle.row_distances.specs.Places.{row_among};

use crate::pairs::{Pair, pair_of};
use crate::places::{RowView, place_of, row_at};
use asm_base::{NoMemory, SectionPlace};
use asm_expr::{Linear, SymId, Term, settled_value};
use asm_levels::{Distance, RowTerm, RowTerms};
use std::alloc::Global;

/// The row that moves a symbol, if it is one of so many.
fn row_of(view: RowView, symbol: SymId, count: u32) -> Option<u32>
    ensures { result ≡ spec.row_of view.entry.symbols.now view.entry.own view.entry.starts.now
        count symbol }
{
    let place = place_of(view, symbol)?;
    row_at(view.starts, place, count)
}

/// Appends the row of a term. One that is no row is not moved.
fn push_term(
    rows: &mut Vec<RowTerm>,
    view: RowView,
    term: &Term,
    count: u32,
) -> Result<(), NoMemory>
    ensures { OnOk result (rows.new.items ≡ rows.old.items ++ spec.with_row term.now
        (spec.row_of view.entry.symbols.now view.entry.own view.entry.starts.now count
        term.now.symbol) []) }
{
    if let Some(row) = row_of(view, term.symbol, count) {
        rows.push(RowTerm {
            coefficient: term.coefficient,
            row,
        })?;
    }
    Ok(())
}

/// The distance of any terms.
#[inline(never)]
#[tactic(auto, using(crate::proofs::RowLemmas::terms_more), unfolding(crate::specs::FormDistances::moved_terms))]
fn sum(
    alloc: Global,
    view: RowView,
    count: u32,
    number: u64,
    terms: &[Term],
) -> Result<Distance, NoMemory>
    ensures { IfOk result (λ found. found ≡ distance.Sum number
        (spec.moved_terms view.entry.symbols.now view.entry.own view.entry.starts.now count
        terms.now)) }
{
    let mut rows = Vec::with_capacity(alloc, terms.len())?;
    for term in terms {
        push_term(&mut rows, view, term, count)?;
    }
    Ok(Distance::Sum {
        number,
        terms: RowTerms::new(alloc, rows)?,
    })
}

/// The distance that an expanded form of no pair comes to: a sum, if its symbols cancel.
#[inline(never)]
#[tactic(auto, unfolding(crate::specs::FormDistances::distance_of))]
fn sum_distance(
    alloc: Global,
    view: RowView,
    count: u32,
    form: &Linear,
) -> Result<Option<Distance>, NoMemory>
    requires { pairs.pair_of form.now.terms ≡ None }
    ensures { IfOk result (λ found. found ≡ spec.distance_of view.entry.symbols.now view.entry.own
        view.entry.starts.now count form.now) }
{
    match settled_value(&view, form) {
        Some(number) => Ok(Some(sum(alloc, view, count, number, form.terms())?)),
        None => Ok(None),
    }
}

/// The distance of a number and two places, one ahead and one behind, where rows move both.
fn between_places(
    starts: &[u32],
    count: u32,
    number: u64,
    ahead: SectionPlace,
    behind: SectionPlace,
) -> Option<Distance>
    ensures { result ≡ spec.between_rows number (row_among starts.now ahead count)
        (row_among starts.now behind count) }
{
    let ahead = row_at(starts, ahead, count)?;
    let behind = row_at(starts, behind, count)?;
    Some(Distance::Between {
        number,
        ahead,
        behind,
    })
}

/// The distance that an expanded form of a pair comes to. Each of the two symbols is looked up once.
#[tactic(auto, using(crate::proofs::PairLemmas::no_place_ahead, crate::proofs::PairLemmas::no_place_behind, crate::proofs::PairLemmas::two_sections, crate::proofs::PairLemmas::rows_between, crate::proofs::PairLemmas::no_rows_between))]
fn pair_distance(
    alloc: Global,
    view: RowView,
    count: u32,
    form: &Linear,
    pair: Pair,
) -> Result<Option<Distance>, NoMemory>
    requires { pairs.pair_of form.now.terms ≡ Some pair }
    ensures { IfOk result (λ found. found ≡ spec.distance_of view.entry.symbols.now view.entry.own
        view.entry.starts.now count form.now) }
{
    let Some(ahead) = place_of(view, pair.ahead) else {
        return Ok(None);
    };
    let Some(behind) = place_of(view, pair.behind) else {
        return Ok(None);
    };
    if ahead.section != behind.section {
        return Ok(None);
    }
    let apart = ahead.place.offset.wrapping_sub(behind.place.offset);
    let number = form.constant().wrapping_add(apart);
    match between_places(view.starts, count, number, ahead, behind) {
        Some(distance) => Ok(Some(distance)),
        None => Ok(Some(sum(alloc, view, count, number, form.terms())?)),
    }
}

/// The distance that an expanded form comes to, however far each of `count` rows is moved: none where its symbols do
/// not cancel. Only a sum that is no difference of two symbols takes memory.
pub fn distance_of(
    alloc: Global,
    view: RowView,
    count: u32,
    form: &Linear,
) -> Result<Option<Distance>, NoMemory>
    ensures { IfOk result (λ found. found ≡ spec.distance_of view.entry.symbols.now view.entry.own
        view.entry.starts.now count form.now) }
{
    match pair_of(form.terms()) {
        Some(pair) => pair_distance(alloc, view, count, form, pair),
        None => sum_distance(alloc, view, count, form),
    }
}

/// A number, and two rows: the one ahead and the one behind.
#[derive(Clone, Copy)]
pub struct RowsApart {
    pub number: u64,
    pub ahead: u32,
    pub behind: u32,
}

/// The two symbols of these terms, if the first one counts once.
#[inline(always)]
fn first_less_second(one: &Term, other: &Term) -> Option<Pair>
    ensures { IfSome result (λ pair. pairs.pair_of (one.now ∷ other.now ∷ []) ≡ Some pair) }
{
    if one.coefficient != 1 || other.coefficient != u64::MAX {
        return None;
    }
    Some(Pair {
        ahead: one.symbol,
        behind: other.symbol,
    })
}

/// The two rows that an expanded form of these two terms comes to the distance of, if it is a symbol less another one
/// and a number: the short way for jumps. It takes no memory.
#[inline(always)]
pub fn rows_apart(
    view: RowView,
    count: u32,
    form: &Linear,
    one: &Term,
    other: &Term,
) -> Option<RowsApart>
    requires { form.now.terms ≡ one.now ∷ other.now ∷ [] }
    ensures { IfSome result (λ apart. spec.distance_of view.entry.symbols.now view.entry.own
        view.entry.starts.now count form.now
        ≡ Some (distance.Between apart.number apart.ahead apart.behind)) }
{
    let pair = first_less_second(one, other)?;
    let ahead = place_of(view, pair.ahead)?;
    let behind = place_of(view, pair.behind)?;
    if behind.section != ahead.section {
        return None;
    }
    let apart = ahead.place.offset.wrapping_sub(behind.place.offset);
    Some(RowsApart {
        number: form.constant().wrapping_add(apart),
        ahead: row_at(view.starts, ahead, count)?,
        behind: row_at(view.starts, behind, count)?,
    })
}

/// However far the rows are moved, the distance of a form is its value there, and where there is no distance, the form has
/// no value, wherever the rows are. It names rows that are there.
#[tactic(auto, using(crate::proofs::RowLemmas::distance_is, crate::proofs::RowLemmas::distance_stands))]
pub fn distances_are_values()
    ensures value { (symbols : SymbolMap) (own : TheOwnPlace) (starts : List ℕ) (count : ℕ)
        (made : Form) → made.constant < 2 ^ 64 → spec.IsDistanceOf symbols own starts count made
        (spec.distance_of symbols own starts count made) }
    ensures stands { (symbols : SymbolMap) (own : TheOwnPlace) (starts : List ℕ) (count : ℕ)
        (made : Form) → spec.NamesFew count (spec.distance_of symbols own starts count made) }
{}
