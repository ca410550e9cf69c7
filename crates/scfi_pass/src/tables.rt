//! The frame table of a function, or its first fault.

ghost use Rattle.std.specs.Prelude.{◌≡◌, ◌<◌, ◌++◌, IfOk, IsTrue, Some, true, length, slice_get};
ghost use Rattle.stack_depths.specs.States.{reached_in};
ghost use Rattle.stack_facts.specs.Facts.{Fact};
ghost use Rattle.cfi_rows.specs.Differences.{differences};
ghost use Rattle.scfi_pass.specs.Rows.{whole_row};
ghost use Rattle.scfi_pass.specs.Changing.{told};
ghost use Rattle.scfi_pass.specs.Looking.{seen};
ghost use Rattle.scfi_pass.specs.Tables.{IsSoundAt, IsNextRow, IsOwnRow, IsHeld, IsFrameTable, row_by, situation, entry_row};
ghost use Rattle.scfi_pass.specs.Synthesis.{analyzed, Refuses, RefusesAt};

use crate::changing::lead;
use crate::checks::AT_EXIT;
use crate::faults::checked;
use crate::item_ops::ItemOp;
use crate::looking::Looked;
use crate::plain::keeps_row;
use crate::rows::{Cfa, StackRow};
use crate::rules::other_row;
use crate::walked::{ItemFault, Walked};
use asm_base::Refusal;
use std::alloc::{AllocError, Global};

fn entry_row() -> StackRow
    ensures { result ≡ entry_row }
{
    StackRow {
        cfa: Cfa {
            register: 0,
            distance: AT_EXIT,
        },
        rbx: None,
        rbp: None,
        r12: None,
        r13: None,
        r14: None,
        r15: None,
    }
}

/// An item, with what is known and stands there.
#[inline(always)]
fn look<'a>(walked: &Walked<'a>, place: usize) -> Looked<'a>
    requires { place < length walked.now.items.now }
    ensures item { slice_get walked.now.items.now place ≡ Some result.item }
    ensures node { slice_get walked.now.graph.now place ≡ Some result.node }
    ensures seen { seen result
        ≡ situation (analyzed walked.now) place result.item result.node }
{
    Looked {
        depths: walked.depths,
        facts: walked.facts,
        place,
        item: walked.items[place],
        node: walked.graph.node(place),
        last: place + 1 == walked.items.len(),
    }
}

/// Whether the same facts stand at an item as at the last one that was gone over.
fn is_held(walked: &Walked, last: usize, place: usize) -> bool
    ensures { IsTrue result → (last < length walked.now.items.now)
        × ((f : Fact) → (analyzed walked.now).facts last f
        ≡ (analyzed walked.now).facts place f) }
{
    if last >= walked.items.len() {
        return false;
    }
    walked.facts.are_same(last, place)
}

/// The row of an item to which a walk leads, if it is another than the one before, or its first fault.
/// The row before has the rules of the last item that was gone over.
fn reached_row(
    walked: &Walked,
    place: usize,
    last: usize,
    row: &StackRow,
) -> Result<Option<StackRow>, Refusal<ItemFault>>
    requires place { place < length walked.now.items.now }
    requires reached { reached_in walked.now.depths.now place ≡ true }
    requires held { IsHeld (analyzed walked.now) last row.now }
    ensures sound { IfOk result (λ _. IsSoundAt (analyzed walked.now) place) }
    ensures row { IfOk result (λ next. IsOwnRow (analyzed walked.now) place (row_by row.now next)) }
    ensures fault { RefusesAt (analyzed walked.now) place result }
{
    let looked = look(walked, place);
    let held = is_held(walked, last, place);
    match checked(&looked, held) {
        Err(fault) => Err(Refusal::Fault(ItemFault { item: place, fault })),
        Ok(cfa) => Ok(other_row(&looked, cfa, held, row)),
    }
}

/// Puts another row in place of a row, if there is one, and the instructions that lead to it.
fn put_row(
    ops: &mut Vec<ItemOp>,
    place: usize,
    row: &mut StackRow,
    next: Option<StackRow>,
) -> Result<(), AllocError>
    ensures row { IfOk result (λ _. row.new ≡ row_by row.old next) }
    ensures ops { IfOk result (λ _. ops.new.items ≡ ops.old.items
        ++ told place (differences (whole_row row.old) (whole_row row.new))) }
{
    match next {
        None => Ok(()),
        Some(next) => {
            lead(ops, place, row, &next)?;
            *row = next;
            Ok(())
        }
    }
}

/// Whether no fault is told at an item to which a walk leads, and the row before is its own, by a look at
/// it.
#[inline(always)]
fn stays(walked: &Walked, place: usize, last: usize, row: &StackRow) -> bool
    requires place { place < length walked.now.items.now }
    requires held { IsHeld (analyzed walked.now) last row.now }
    ensures sound { IsTrue result → IsSoundAt (analyzed walked.now) place }
    ensures row { IsTrue result → IsOwnRow (analyzed walked.now) place row.now }
{
    if !is_held(walked, last, place) {
        return false;
    }
    let looked = look(walked, place);
    keeps_row(&looked, row)
}

/// Goes over an item to which a walk leads, whose row may be another than that before.
#[inline(never)]
#[tactic(auto, using(crate::proofs::TableLemmas::own_next, crate::proofs::TableLemmas::own_held))]
fn take_other(
    walked: &Walked,
    place: usize,
    last: usize,
    row: &mut StackRow,
    ops: &mut Vec<ItemOp>,
) -> Result<usize, Refusal<ItemFault>>
    requires place { place < length walked.now.items.now }
    requires reached { reached_in walked.now.depths.now place ≡ true }
    requires held { IsHeld (analyzed walked.now) last row.old }
    ensures sound { IfOk result (λ _. IsSoundAt (analyzed walked.now) place) }
    ensures row { IfOk result (λ _. IsNextRow (analyzed walked.now) place row.old row.new) }
    ensures held { IfOk result (λ last. IsHeld (analyzed walked.now) last row.new) }
    ensures ops { IfOk result (λ _. ops.new.items ≡ ops.old.items
        ++ told place (differences (whole_row row.old) (whole_row row.new))) }
    ensures fault { RefusesAt (analyzed walked.now) place result }
{
    match reached_row(walked, place, last, row) {
        Err(refusal) => Err(refusal),
        Ok(next) => match put_row(ops, place, row, next) {
            Err(_) => Err(Refusal::NoMemory),
            Ok(()) => Ok(place),
        },
    }
}

/// Goes over an item: the row is its own then, and the instructions lead to it. It tells the last item
/// that was gone over.
#[inline(always)]
#[tactic(auto, using(crate::proofs::TableLemmas::stays_next, crate::proofs::TableLemmas::stays_held))]
fn take(
    walked: &Walked,
    place: usize,
    last: usize,
    row: &mut StackRow,
    ops: &mut Vec<ItemOp>,
) -> Result<usize, Refusal<ItemFault>>
    requires place { place < length walked.now.items.now }
    requires held { IsHeld (analyzed walked.now) last row.old }
    ensures sound { IfOk result (λ _. IsSoundAt (analyzed walked.now) place) }
    ensures row { IfOk result (λ _. IsNextRow (analyzed walked.now) place row.old row.new) }
    ensures held { IfOk result (λ last. IsHeld (analyzed walked.now) last row.new) }
    ensures ops { IfOk result (λ _. ops.new.items ≡ ops.old.items
        ++ told place (differences (whole_row row.old) (whole_row row.new))) }
    ensures fault { RefusesAt (analyzed walked.now) place result }
{
    if !walked.depths.is_reached(place) {
        return Ok(last);
    }
    if stays(walked, place, last, row) {
        return Ok(place);
    }
    take_other(walked, place, last, row, ops)
}

/// The frame table of a function, or its first fault.
pub(crate) fn frame_table(alloc: Global, walked: &Walked) -> Result<Vec<ItemOp>, Refusal<ItemFault>>
    ensures table { IfOk result (λ ops. IsFrameTable (analyzed walked.now) ops.items) }
    ensures fault { Refuses (analyzed walked.now) result }
{
    let mut ops = Vec::new(alloc);
    let mut row = entry_row();
    let mut last = walked.items.len();
    for place in 0..walked.items.len() {
        match take(walked, place, last, &mut row, &mut ops) {
            Err(refusal) => return Err(refusal),
            Ok(next) => last = next,
        }
    }
    Ok(ops)
}
