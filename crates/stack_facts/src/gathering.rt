//! The slots that items of a function can make.

ghost use Rattle.std.specs.Prelude.{◌≡◌, ◌≤◌, ◌<◌, ◌+◌, ℕ, true, IfOk, IfSome, length, is_some, if◌then◌else◌};
ghost use Rattle.stack_depths.specs.States.{distances_in};
ghost use Rattle.stack_facts.specs.Places.{is_saved, is_slot_place};
ghost use Rattle.stack_facts.specs.Facts.{is_at, saves};
ghost use Rattle.stack_facts.specs.Sets.{place_of, HasSaves, IsTable};
ghost use Rattle.stack_facts.specs.Ranks.{MayStand, IsRanked, HasAll};

use crate::changes::saved_by;
use crate::ranking::ranked;
use crate::slots::add_found;
use crate::values::Slot;
use code_functions::CodeItem;
use stack_depths::DepthTable;
use std::alloc::{AllocError, Global};

/// The slots that items can make, each once, where a word has room for them.
#[tactic(auto, using(crate::proofs::GatherLemmas::none_plain))]
fn gather_few(
    alloc: Global,
    items: &[CodeItem],
    depths: &DepthTable,
) -> Result<Option<Vec<Slot>>, AllocError>
    ensures table { IfOk result (λ found. IfSome found (λ slots.
        IsTable items.now (distances_in depths.now) slots.items)) }
    ensures few { IfOk result (λ found. IfSome found (λ slots.
        length slots.items ≤ saves items.now (distances_in depths.now))) }
    ensures short { IfOk result (λ found. IfSome found (λ slots. length slots.items < 58)) }
{
    let mut slots = Vec::new(alloc);
    for item in 0..items.len() {
        let found = saved_by(depths, item, &items[item].effect);
        add_found(&mut slots, found)?;
        if slots.len() >= 58 {
            return Ok(None);
        }
    }
    Ok(Some(slots))
}

/// Puts a slot last, where one was found.
#[tactic(auto, using(crate::proofs::GatherLemmas::put_may, crate::proofs::GatherLemmas::put_there, crate::proofs::GatherLemmas::put_kept))]
fn put_found(slots: &mut Vec<Slot>, found: Option<Slot>) -> Result<(), AllocError>
    requires may { MayStand slots.old.items }
    requires saved { (n r : ℕ) → is_at found n r ≡ true
        → (is_saved r ≡ true) × (is_slot_place n ≡ true) }
    ensures may { IfOk result (λ _. MayStand slots.new.items) }
    ensures there { IfOk result (λ _. (n r : ℕ) → is_at found n r ≡ true
        → place_of slots.new.items n r < length slots.new.items) }
    ensures kept { IfOk result (λ _. HasAll slots.old.items slots.new.items) }
    ensures few { IfOk result (λ _. length slots.new.items
        ≤ length slots.old.items + (if is_some found then 1 else 0)) }
{
    match found {
        None => {}
        Some(slot) => slots.push(slot)?,
    }
    Ok(())
}

/// The slots that items can make, one for each item that can.
fn gather_all(
    alloc: Global,
    items: &[CodeItem],
    depths: &DepthTable,
) -> Result<Vec<Slot>, AllocError>
    ensures may { IfOk result (λ slots. MayStand slots.items) }
    ensures all { IfOk result (λ slots.
        HasSaves items.now (distances_in depths.now) (length items.now) slots.items) }
    ensures few { IfOk result (λ slots.
        length slots.items ≤ saves items.now (distances_in depths.now)) }
{
    let mut slots = Vec::new(alloc);
    for item in 0..items.len() {
        let found = saved_by(depths, item, &items[item].effect);
        put_found(&mut slots, found)?;
    }
    Ok(slots)
}

/// The slots that items can make, each once. Where a word has no room for them they are in order.
pub(crate) fn gather(
    alloc: Global,
    items: &[CodeItem],
    depths: &DepthTable,
) -> Result<Vec<Slot>, AllocError>
    ensures table { IfOk result (λ slots. IsTable items.now (distances_in depths.now) slots.items) }
    ensures few { IfOk result (λ slots.
        length slots.items ≤ saves items.now (distances_in depths.now)) }
    ensures ranked { IfOk result (λ slots. 58 ≤ length slots.items → IsRanked slots.items) }
{
    let few = gather_few(alloc, items, depths)?;
    match few {
        Some(slots) => Ok(slots),
        None => {
            let all = gather_all(alloc, items, depths)?;
            let slots = ranked(alloc, all)?;
            Ok(slots)
        }
    }
}
