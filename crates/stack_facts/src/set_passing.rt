//! The facts after an item, where they are too many for a word.

ghost use Rattle.std.specs.Prelude.{◌≡◌, ◌+◌, ◌<◌, ◌≤◌, ◌≢◌, ◌^◌, ◌==◌, ◌&&◌, ◌||◌, not, max, ℕ, Bool, true, false, List, None, OnOk, IfOk, IsTrue, get_or, length};
ghost use Rattle.insn_effects.specs.Followed.{followed_by};
ghost use Rattle.stack_depths.specs.States.{distances_in};
ghost use Rattle.stack_facts.specs.Places as places;
ghost use Rattle.stack_facts.specs.Facts as spec;
ghost use Rattle.stack_facts.specs.Sets.{holds_in, fact_at, place_of};
ghost use Rattle.stack_facts.specs.Ranks.{IsRanked, IsCountBefore, IsNumber, IsEnd, rank_up_to, is_between, lies_between};
ghost use Rattle.stack_facts.specs.Passing.{IsDropped, is_met, is_stored, is_lower, is_under, IsPut, IsMade, IsFreed, KeepsEntries};

use crate::changes::{change_by, is_quiet, writes, writes_none};
use crate::passing::has_entry;
use crate::ranking::{count_before, place_in};
use crate::values::{Change, Clauses, Slot, Span};
use insn_effects::Effect;
use number_sets::{NumberSet, Numbers};
use stack_depths::DepthTable;
use std::alloc::{AllocError, Global};

/// How many slots of a table come before a distance of a register, or before all those of the next
/// one.
fn count_up_to(slots: &[Slot], register: u8, to: Option<u64>) -> usize
    requires ranked { IsRanked slots.now }
    requires known { register < 7 }
    ensures count { IsCountBefore slots.now (rank_up_to register to) result }
    ensures number { IsNumber to }
{
    match to {
        Some(to) => count_before(slots, register, to),
        None => count_before(slots, register + 1, 0),
    }
}

/// Takes the slots of a register out that lie from a distance on up to another, or to the last.
fn clear_between(
    alloc: Global,
    slots: &[Slot],
    out: &mut NumberSet,
    register: u8,
    from: u64,
    to: Option<u64>,
) -> Result<(), AllocError>
    requires ranked { IsRanked slots.now }
    requires known { register < 7 }
    ensures long { OnOk result (length out.new ≡ length out.old) }
    ensures dropped { OnOk result (IsDropped out.old out.new (is_between register from to slots.now)
        (length slots.now)) }
{
    let first = count_before(slots, register, from);
    let past = count_up_to(slots, register, to);
    out.clear(alloc, 6 + first, 6 + past)
}

/// Takes the slots out that lie from a distance on up to another, or to the last.
fn clear_all_between(
    alloc: Global,
    slots: &[Slot],
    out: &mut NumberSet,
    from: u64,
    to: Option<u64>,
) -> Result<(), AllocError>
    requires { IsRanked slots.now }
    ensures long { OnOk result (length out.new ≡ length out.old) }
    ensures dropped { OnOk result (IsDropped out.old out.new (lies_between from to slots.now)
        (length slots.now)) }
{
    for register in 1..7u8 {
        clear_between(alloc, slots, out, register, from, to)?;
    }
    Ok(())
}

/// Where bytes end, of which none counts as one.
fn end_of(span: Span) -> Option<u64>
    ensures { IsEnd (span.start + max span.size 1) result }
{
    match span.start.checked_add(u64::from(span.size.max(1))) {
        None => None,
        Some(end) => Some(end),
    }
}

/// Takes the slots out that bytes meet.
fn clear_met(
    alloc: Global,
    slots: &[Slot],
    out: &mut NumberSet,
    span: Span,
) -> Result<(), AllocError>
    requires { IsRanked slots.now }
    ensures long { OnOk result (length out.new ≡ length out.old) }
    ensures dropped { OnOk result (IsDropped out.old out.new (is_met span slots.now)
        (length slots.now)) }
{
    // Slots lie below 0, so bytes that begin far from there meet none.
    if span.start < 1 << 62 {
        return Ok(());
    }
    clear_all_between(alloc, slots, out, span.start - 7, end_of(span))
}

/// The same, if bytes are stored.
fn clear_stored(
    alloc: Global,
    slots: &[Slot],
    out: &mut NumberSet,
    stored: Option<Span>,
) -> Result<(), AllocError>
    requires { IsRanked slots.now }
    ensures long { OnOk result (length out.new ≡ length out.old) }
    ensures dropped { OnOk result (IsDropped out.old out.new (is_stored stored slots.now)
        (length slots.now)) }
{
    match stored {
        None => Ok(()),
        Some(span) => clear_met(alloc, slots, out, span),
    }
}

/// Takes the slots out that are below a distance.
fn clear_lower(
    alloc: Global,
    slots: &[Slot],
    out: &mut NumberSet,
    limit: u64,
) -> Result<(), AllocError>
    requires { IsRanked slots.now }
    ensures long { OnOk result (length out.new ≡ length out.old) }
    ensures dropped { OnOk result (IsDropped out.old out.new (is_lower limit slots.now)
        (length slots.now)) }
{
    // All slots lie below 0.
    if limit < 1 << 63 {
        return clear_all_between(alloc, slots, out, 0, None);
    }
    clear_all_between(alloc, slots, out, 0, Some(limit))
}

/// The same, if the distance is known.
fn clear_under(
    alloc: Global,
    slots: &[Slot],
    out: &mut NumberSet,
    limit: Option<u64>,
) -> Result<(), AllocError>
    requires { IsRanked slots.now }
    ensures long { OnOk result (length out.new ≡ length out.old) }
    ensures dropped { OnOk result (IsDropped out.old out.new (is_under limit slots.now)
        (length slots.now)) }
{
    match limit {
        None => Ok(()),
        Some(limit) => clear_lower(alloc, slots, out, limit),
    }
}

/// Puts a number in, or takes it out.
fn put_bit(alloc: Global, out: &mut NumberSet, k: usize, bit: bool) -> Result<(), AllocError>
    requires { k < length out.old }
    ensures long { OnOk result (length out.new ≡ length out.old) }
    ensures here { OnOk result (get_or out.new k false ≡ bit) }
    ensures others { OnOk result ((j : ℕ) → j ≢ k
        → get_or out.new j false ≡ get_or out.old j false) }
{
    if out.has(k) == bit {
        return Ok(());
    }
    if bit {
        return out.put(alloc, k);
    }
    out.take(alloc, k)
}

/// Puts a slot in, if it is in the table, or takes it out.
fn put_slot(
    alloc: Global,
    slots: &[Slot],
    out: &mut NumberSet,
    slot: Slot,
    bit: bool,
) -> Result<(), AllocError>
    requires ranked { IsRanked slots.now }
    requires room { length out.old ≡ 6 + length slots.now }
    ensures long { OnOk result (length out.new ≡ length out.old) }
    ensures entries { OnOk result (KeepsEntries out.old out.new) }
    ensures put { OnOk result (IsPut slots.now slot bit out.old out.new) }
{
    let at = place_in(slots, slot.distance, slot.register);
    if at < slots.len() {
        put_bit(alloc, out, 6 + at, bit)?;
        return Ok(());
    }
    Ok(())
}

/// Puts a slot in that is made, where the register had its entry value.
#[tactic(auto, using(crate::proofs::PassLemmas::saves_one, crate::proofs::PassLemmas::saves_unentered, crate::proofs::PassLemmas::saves_none))]
fn put_saved(
    alloc: Global,
    slots: &[Slot],
    out: &mut NumberSet,
    saved: Option<Slot>,
    before: &NumberSet,
) -> Result<(), AllocError>
    requires ranked { IsRanked slots.now }
    requires room { length out.old ≡ 6 + length slots.now }
    ensures long { OnOk result (length out.new ≡ length out.old) }
    ensures entries { OnOk result (KeepsEntries out.old out.new) }
    ensures made { OnOk result (IsMade slots.now saved before.now out.old out.new) }
{
    match saved {
        None => Ok(()),
        Some(slot) => {
            if has_entry(slots, before, slot.register) {
                put_slot(alloc, slots, out, slot, true)
            } else {
                Ok(())
            }
        }
    }
}

/// Whether a slot stands.
pub(crate) fn stands(slots: &[Slot], bits: &NumberSet, slot: Slot) -> bool
    requires { IsRanked slots.now }
    ensures { result ≡ holds_in slots.now bits.now (spec.slot slot.distance slot.register) }
{
    let at = place_in(slots, slot.distance, slot.register);
    at < slots.len() && bits.has(6 + at)
}

/// Takes a slot out that stood, which a load frees.
#[tactic(auto, using(crate::proofs::PassLemmas::loads_one, crate::proofs::PassLemmas::loads_unstood, crate::proofs::PassLemmas::loads_none))]
fn clear_freed(
    alloc: Global,
    slots: &[Slot],
    out: &mut NumberSet,
    freed: Option<Slot>,
    before: &NumberSet,
) -> Result<(), AllocError>
    requires ranked { IsRanked slots.now }
    requires room { length out.old ≡ 6 + length slots.now }
    ensures long { OnOk result (length out.new ≡ length out.old) }
    ensures entries { OnOk result (KeepsEntries out.old out.new) }
    ensures freed { OnOk result (IsFreed slots.now freed before.now out.old out.new) }
{
    match freed {
        None => Ok(()),
        Some(slot) => {
            if stands(slots, before, slot) {
                put_slot(alloc, slots, out, slot, false)
            } else {
                Ok(())
            }
        }
    }
}

/// Whether a register is loaded from a slot of its own that stood.
fn loads_own(slots: &[Slot], loaded: Option<Slot>, before: &NumberSet, register: u8) -> bool
    requires { IsRanked slots.now }
    ensures { result ≡ spec.loads_own loaded (holds_in slots.now before.now) register }
{
    match loaded {
        None => false,
        Some(slot) => slot.register == register && stands(slots, before, slot),
    }
}

/// Whether a register has its entry value after an item.
fn entry_stands(
    slots: &[Slot],
    effect: &Effect,
    change: &Change,
    before: &NumberSet,
    register: u8,
) -> bool
    requires ranked { IsRanked slots.now }
    requires known { register < 7 }
    ensures { result ≡ spec.facts_after (places.writes (followed_by effect.now)) change.now
        (holds_in slots.now before.now) (spec.entry register) }
{
    let own = loads_own(slots, change.loaded, before, register);
    let kept = has_entry(slots, before, register);
    let written = writes(effect, register);
    own || (kept && !written)
}

/// Tells of each entry value whether it stands after an item.
fn put_each_entry(
    alloc: Global,
    slots: &[Slot],
    effect: &Effect,
    change: &Change,
    before: &NumberSet,
    out: &mut NumberSet,
) -> Result<(), AllocError>
    requires ranked { IsRanked slots.now }
    requires room { length out.old ≡ 6 + length slots.now }
    ensures long { OnOk result (length out.new ≡ length out.old) }
    ensures entries { OnOk result ((k : ℕ) → k < 6 → get_or out.new k false
        ≡ spec.facts_after (places.writes (followed_by effect.now)) change.now
        (holds_in slots.now before.now) (spec.entry (k + 1))) }
    ensures others { OnOk result ((k : ℕ) → 6 ≤ k
        → get_or out.new k false ≡ get_or out.old k false) }
{
    for k in 0..6u8 {
        let stands = entry_stands(slots, effect, change, before, k + 1);
        put_bit(alloc, out, k as usize, stands)?;
    }
    Ok(())
}

fn loads_none(loaded: Option<Slot>) -> bool
    ensures { IsTrue result → loaded ≡ None }
{
    match loaded {
        None => true,
        Some(_) => false,
    }
}

/// Whether an item leaves all entry values as they are, by a look at its role.
fn keeps_entries(effect: &Effect, change: &Change) -> bool
    ensures loaded { IsTrue result → change.now.loaded ≡ None }
    ensures written { IsTrue result → (r : ℕ) → 0 < r
        → places.writes (followed_by effect.now) r ≡ false }
{
    if !loads_none(change.loaded) {
        return false;
    }
    writes_none(effect)
}

/// The same of a set that has the entry values that stood before.
fn put_entries(
    alloc: Global,
    slots: &[Slot],
    effect: &Effect,
    change: &Change,
    before: &NumberSet,
    out: &mut NumberSet,
) -> Result<(), AllocError>
    requires ranked { IsRanked slots.now }
    requires room { length out.old ≡ 6 + length slots.now }
    requires stood { KeepsEntries before.now out.old }
    ensures long { OnOk result (length out.new ≡ length out.old) }
    ensures entries { OnOk result ((k : ℕ) → k < 6 → get_or out.new k false
        ≡ spec.facts_after (places.writes (followed_by effect.now)) change.now
        (holds_in slots.now before.now) (spec.entry (k + 1))) }
    ensures others { OnOk result ((k : ℕ) → 6 ≤ k
        → get_or out.new k false ≡ get_or out.old k false) }
{
    if keeps_entries(effect, change) {
        return Ok(());
    }
    put_each_entry(alloc, slots, effect, change, before, out)
}

/// The facts after an item that makes a change.
fn set_by(
    alloc: Global,
    slots: &[Slot],
    effect: &Effect,
    change: &Change,
    before: &NumberSet,
) -> Result<NumberSet, AllocError>
    requires ranked { IsRanked slots.now }
    ensures long { IfOk result (λ bits. length bits ≡ 6 + length slots.now) }
    ensures entries { IfOk result (λ bits. (k : ℕ) → k < 6 → get_or bits k false
        ≡ spec.facts_after (places.writes (followed_by effect.now)) change.now
        (holds_in slots.now before.now) (spec.entry (k + 1))) }
    ensures slots { IfOk result (λ bits. (k : ℕ) → k < length slots.now
        → get_or bits (6 + k) false
        ≡ spec.facts_after (places.writes (followed_by effect.now)) change.now
        (holds_in slots.now before.now) (fact_at slots.now k)) }
{
    let mut out = same_of(alloc, slots, before)?;
    clear_stored(alloc, slots, &mut out, change.stored)?;
    clear_under(alloc, slots, &mut out, change.cleared)?;
    put_saved(alloc, slots, &mut out, change.saved, before)?;
    clear_freed(alloc, slots, &mut out, change.freed, before)?;
    clear_under(alloc, slots, &mut out, change.floor)?;
    put_entries(alloc, slots, effect, change, before, &mut out)?;
    Ok(out)
}

/// The facts after an item, by these clauses, at the distances that are known there.
pub(crate) fn set_after(
    alloc: Global,
    clauses: Clauses,
    slots: &[Slot],
    depths: &DepthTable,
    item: usize,
    effect: &Effect,
    before: &NumberSet,
) -> Result<NumberSet, AllocError>
    requires ranked { IsRanked slots.now }
    requires saved { (n r : ℕ) → spec.is_at (places.change_by clauses (followed_by effect.now)
        (distances_in depths.now item)).saved n r ≡ true
        → place_of slots.now n r < length slots.now }
    ensures long { IfOk result (λ bits. length bits ≡ 6 + length slots.now) }
    ensures at { IfOk result (λ bits. (f : spec.Fact) → holds_in slots.now bits f
        ≡ spec.facts_after (places.writes (followed_by effect.now))
        (places.change_by clauses (followed_by effect.now) (distances_in depths.now item))
        (holds_in slots.now before.now) f) }
{
    if is_quiet(effect) {
        let kept = same_of(alloc, slots, before)?;
        return Ok(kept);
    }
    let change = change_by(clauses, depths, item, effect);
    let out = set_by(alloc, slots, effect, &change, before)?;
    Ok(out)
}

/// The entry values alone, in the set of a table of so many slots.
pub(crate) fn entries_alone(alloc: Global, count: usize) -> Result<NumberSet, AllocError>
    requires { count + 6 < 2 ^ 64 }
    ensures long { IfOk result (λ bits. length bits ≡ 6 + count) }
    ensures low { IfOk result (λ bits. (k : ℕ) → k < 6 → get_or bits k false ≡ true) }
    ensures high { IfOk result (λ bits. (k : ℕ) → 6 ≤ k → get_or bits k false ≡ false) }
{
    let mut out = NumberSet::new(alloc, 6 + count)?;
    for k in 0..6usize {
        out.put(alloc, k)?;
    }
    Ok(out)
}

/// The facts of a set once more, in the set of a table.
pub(crate) fn same_of(
    alloc: Global,
    slots: &[Slot],
    before: &NumberSet,
) -> Result<NumberSet, AllocError>
    ensures long { IfOk result (λ bits. length bits ≡ 6 + length slots.now) }
    ensures same { IfOk result (λ bits. (k : ℕ) → k < 6 + length slots.now
        → get_or bits k false ≡ get_or before.now k false) }
{
    let width = slots.len() + 6;
    if before.len() == width {
        return before.copy();
    }
    before.resized(alloc, width)
}
