//! Tables of slots in the order of their registers and distances.

ghost use Rattle.std.specs.Prelude.{◌≡◌, ◌≤◌, ◌<◌, ◌-◌, ℕ, nat_lt, true, false, IfOk, IsTrue, IsFalse, length};
ghost use Rattle.std.specs.Ordering.{nat_cmp};
ghost use Rattle.std.specs.List.Sorted.{IsNonDecreasingBy};
ghost use Rattle.stack_facts.specs.Places.{is_saved, is_slot_place};
ghost use Rattle.stack_facts.specs.Sets.{place_of, slot_at, is_slot, IsAdded};
ghost use Rattle.stack_facts.specs.Ranks.{rank_at, rank_of, MayStand, IsRanked, IsCountBefore, HasAll};

use crate::slots::is_slot;
use crate::values::Slot;
use std::alloc::{AllocError, Global};
use std::cmp::Ordering;

/// Whether a slot comes before a distance of a register.
#[inline(always)]
fn comes_before(slot: &Slot, register: u8, distance: u64) -> bool
    ensures { result ≡ nat_lt (rank_of slot.now) (rank_at distance register) }
{
    let own = *slot;
    own.register < register || (own.register == register && own.distance < distance)
}

/// How many slots of a table come before a distance of a register.
pub(crate) fn count_before(slots: &[Slot], register: u8, distance: u64) -> usize
    requires { IsRanked slots.now }
    ensures { IsCountBefore slots.now (rank_at distance register) result }
{
    slots.partition_point(|slot| comes_before(slot, register, distance))
}

/// The place of a slot in a table, or the table's length.
pub(crate) fn place_in(slots: &[Slot], distance: u64, register: u8) -> usize
    requires { IsRanked slots.now }
    ensures { result ≡ place_of slots.now distance register }
{
    let at = count_before(slots, register, distance);
    match slots.get(at) {
        None => slots.len(),
        Some(slot) => {
            if is_slot(slot, distance, register) {
                at
            } else {
                slots.len()
            }
        }
    }
}

/// The order of slots.
#[tactic(auto, using(crate::proofs::RankLemmas::by_distance, crate::proofs::RankLemmas::by_register))]
fn order(one: &Slot, other: &Slot) -> Ordering
    ensures { result ≡ nat_cmp (rank_of one.now) (rank_of other.now) }
{
    let near = one.distance;
    let far = other.distance;
    if one.register == other.register {
        return near.cmp(&far);
    }
    one.register.cmp(&other.register)
}

/// Puts slots in order.
fn sort_slots(found: &mut Vec<Slot>)
    ensures sorted { IsNonDecreasingBy rank_of found.new.items }
    ensures may { MayStand found.old.items → MayStand found.new.items }
    ensures all { HasAll found.old.items found.new.items }
    ensures long { length found.new.items ≡ length found.old.items }
{
    found.sort_unstable_by(|one, other| order(one, other));
}

/// Whether a slot is the last one of a table.
#[tactic(auto, using(crate::proofs::RankLemmas::same_rank))]
fn is_last(slots: &[Slot], slot: &Slot) -> bool
    ensures last { IsTrue result → (0 < length slots.now)
        × (slot_at slots.now (length slots.now - 1) ≡ slot.now) }
    ensures other { IsFalse result → 0 < length slots.now → is_slot slot.now.distance
        slot.now.register (slot_at slots.now (length slots.now - 1)) ≡ false }
{
    match slots.last() {
        None => false,
        Some(last) => is_slot(last, slot.distance, slot.register),
    }
}

/// Puts a slot behind those of a table, of which none comes behind it, unless it is there.
#[tactic(auto, using(crate::proofs::RankLemmas::put_ranked, crate::proofs::RankLemmas::put_behind, crate::proofs::RankLemmas::put_added, crate::proofs::RankLemmas::last_added))]
fn put_ranked(slots: &mut Vec<Slot>, slot: Slot) -> Result<(), AllocError>
    requires ranked { IsRanked slots.old.items }
    requires may { (is_saved slot.register ≡ true) × (is_slot_place slot.distance ≡ true) }
    requires behind { (k : ℕ) → k < length slots.old.items
        → rank_of (slot_at slots.old.items k) ≤ rank_of slot }
    ensures ranked { IfOk result (λ _. IsRanked slots.new.items) }
    ensures behind { IfOk result (λ _. (k : ℕ) → k < length slots.new.items
        → rank_of (slot_at slots.new.items k) ≤ rank_of slot) }
    ensures added { IfOk result (λ _. IsAdded slots.old.items slot slots.new.items) }
{
    if !is_last(slots, &slot) {
        slots.push(slot)?;
    }
    Ok(())
}

/// The slots of a list in order, each once.
pub(crate) fn ranked(alloc: Global, mut found: Vec<Slot>) -> Result<Vec<Slot>, AllocError>
    requires { MayStand found.items }
    ensures ranked { IfOk result (λ slots. IsRanked slots.items) }
    ensures all { IfOk result (λ slots. HasAll found.items slots.items) }
    ensures few { IfOk result (λ slots. length slots.items ≤ length found.items) }
{
    sort_slots(&mut found);
    let mut slots = Vec::with_capacity(alloc, found.len())?;
    for slot in &found {
        put_ranked(&mut slots, *slot)?;
    }
    Ok(slots)
}
