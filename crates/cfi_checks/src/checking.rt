//! Whether the written rows of a function are right at each item to which a walk leads.

ghost use Rattle.std.specs.Prelude.{◌≡◌, ◌<◌, ◌≤◌, ℕ, IfErr, IfOk, IsTrue, OnOk, Some, true, length, slice_get};
ghost use Rattle.stack_depths.specs.States.{reached_in};
ghost use Rattle.stack_facts.specs.Facts.{Fact};
ghost use Rattle.scfi_pass.specs.Looking.{seen};
ghost use Rattle.scfi_pass.specs.Tables.{situation};
ghost use Rattle.cfi_checks.specs.Rows.{AreInOrder, entry_row, row_at};
ghost use Rattle.cfi_checks.specs.Places.{analyzed, AreBegun, IsHeld, from_at, last_of};
ghost use Rattle.cfi_checks.specs.Checks.{IsShownAt, IsFaultAt, IsFirstFault, IsRight, IsFaultOf};

use crate::checked::Checked;
use crate::faults::{CheckFault, CheckedFault};
use crate::item_checks::check_item;
use crate::places::{begun, entry_row, last_of};
use crate::rows::{RowFrom, WrittenRow};
use asm_base::{Refusal, Steps};
use code_functions::CodeItem;
use flow_graph::Graph;
use scfi_pass::Looked;
use stack_depths::depths;
use stack_facts::facts_kept;
use std::alloc::Global;
use std::sync::ledger::Ledger;

/// How many rows have begun, and the last item that was gone over since, or the number of items.
#[derive(Clone, Copy)]
struct Reading {
    begun: usize,
    last: usize,
}

/// An item, with what is known and stands there.
fn look<'a>(checked: &Checked<'a>, place: usize) -> Looked<'a>
    requires { place < length checked.now.items.now }
    ensures item { slice_get checked.now.items.now place ≡ Some result.item }
    ensures node { slice_get checked.now.graph.now place ≡ Some result.node }
    ensures seen { seen result
        ≡ situation (analyzed checked.now) place result.item result.node }
{
    Looked {
        depths: checked.depths,
        facts: checked.facts,
        place,
        item: checked.items[place],
        node: checked.graph.node(place),
        last: place + 1 == checked.items.len(),
    }
}

/// Whether the same facts stand at an item as at the last one that was gone over.
fn is_held(checked: &Checked, last: usize, place: usize) -> bool
    ensures { IsTrue result → (last < length checked.now.items.now)
        × ((f : Fact) → (analyzed checked.now).facts last f
        ≡ (analyzed checked.now).facts place f) }
{
    if last >= checked.items.len() {
        return false;
    }
    checked.facts.are_same(last, place)
}

/// The first fault of an item to which a walk leads, with the row in force there. The row's rules are
/// known to be shown at the last item that was gone over.
fn check_reached(
    checked: &Checked,
    place: usize,
    last: usize,
    row: &WrittenRow,
) -> Result<(), CheckFault>
    requires place { place < length checked.now.items.now }
    requires reached { reached_in checked.now.depths.now place ≡ true }
    requires row { row_at checked.now.rows.now place ≡ row.now }
    requires held { IsHeld (analyzed checked.now) last row.now }
    ensures shown { OnOk result (IsShownAt (analyzed checked.now) checked.now.rows.now place) }
    ensures held { OnOk result (IsHeld (analyzed checked.now) place row.now) }
    ensures fault { IfErr result (IsFaultAt (analyzed checked.now) checked.now.rows.now place) }
{
    let looked = look(checked, place);
    let held = is_held(checked, last, place);
    match check_item(&looked, row, held) {
        Err(fault) => Err(fault),
        Ok(()) => Ok(()),
    }
}

/// The last item that was gone over since the last of so many rows began, or the number of items.
fn last_since(checked: &Checked, at: Reading, count: usize) -> usize
    requires { IsHeld (analyzed checked.now) at.last (last_of checked.now.rows.now at.begun) }
    ensures { IsHeld (analyzed checked.now) result (last_of checked.now.rows.now count) }
{
    if at.begun == count {
        return at.last;
    }
    checked.items.len()
}

/// Goes over an item.
#[tactic(auto, using(crate::proofs::RowLemmas::in_force))]
fn check_at(
    checked: &Checked,
    entry: &WrittenRow,
    at: Reading,
    place: usize,
) -> Result<Reading, CheckFault>
    requires place { place < length checked.now.items.now }
    requires entry { entry.now ≡ entry_row }
    requires within { at.begun ≤ length checked.now.rows.now }
    requires begun { (k : ℕ) → k < at.begun → (from_at checked.now.rows.now k).item ≤ place }
    requires held { IsHeld (analyzed checked.now) at.last (last_of checked.now.rows.now at.begun) }
    ensures begun { IfOk result (λ next. AreBegun checked.now.rows.now place next.begun) }
    ensures held { IfOk result (λ next.
        IsHeld (analyzed checked.now) next.last (last_of checked.now.rows.now next.begun)) }
    ensures shown { OnOk result (IsShownAt (analyzed checked.now) checked.now.rows.now place) }
    ensures fault { IfErr result (IsFaultAt (analyzed checked.now) checked.now.rows.now place) }
{
    let count = begun(checked.rows, at.begun, place);
    let last = last_since(checked, at, count);
    if !checked.depths.is_reached(place) {
        return Ok(Reading { begun: count, last });
    }
    let row = last_of(entry, checked.rows, count);
    match check_reached(checked, place, last, row) {
        Err(fault) => Err(fault),
        Ok(()) => Ok(Reading {
            begun: count,
            last: place,
        }),
    }
}

/// The first fault of the rows, if they have one.
fn check_rows(checked: &Checked) -> Result<(), CheckedFault>
    ensures shown { OnOk result ((j : ℕ) → IsShownAt (analyzed checked.now) checked.now.rows.now j) }
    ensures fault { IfErr result (λ f.
        IsFirstFault (analyzed checked.now) checked.now.rows.now f.item f.fault) }
{
    let entry = entry_row();
    let mut at = Reading {
        begun: 0,
        last: checked.items.len(),
    };
    for place in 0..checked.items.len() {
        match check_at(checked, &entry, at, place) {
            Err(fault) => return Err(CheckedFault { item: place, fault }),
            Ok(next) => at = next,
        }
    }
    Ok(())
}

/// Whether the written rows of a function with these items and this graph, in the order of their items,
/// are right at each item to which a walk leads, or else the first fault of the least item that has one.
/// Before the first of them the row at entry is in force.
pub fn check<L: Ledger>(
    alloc: Global,
    items: &[CodeItem],
    graph: &Graph,
    rows: &[RowFrom],
    steps: &mut Steps<L>,
) -> Result<(), Refusal<CheckedFault>>
    requires as_many { length items.now ≡ length graph.now }
    requires in_order { AreInOrder rows.now }
    ensures right { OnOk result (IsRight items.now graph.now rows.now steps.old steps.new) }
    ensures fault { IsFaultOf items.now graph.now rows.now steps.old steps.new result }
{
    let known = depths(alloc, graph, items, steps)?;
    let standing = facts_kept(alloc, graph, items, &known, steps)?;
    let checked = Checked {
        items,
        graph,
        depths: &known,
        facts: &standing,
        rows,
    };
    match check_rows(&checked) {
        Err(fault) => Err(Refusal::Fault(fault)),
        Ok(()) => Ok(()),
    }
}
