//! The facts after an item.

ghost use Rattle.std.specs.Prelude.{◌≡◌, ◌+◌, ◌<◌, ◌≤◌, ℕ, Bool, true, false, List, None, IfOk, IfSome, IsTrue, get_or, length};
ghost use Rattle.insn_effects.specs.Followed.{followed_by};
ghost use Rattle.stack_depths.specs.States.{distances_in};
ghost use Rattle.stack_facts.specs.declared.values.Slot.{Slot as TheSlot};
ghost use Rattle.stack_facts.specs.Places as places;
ghost use Rattle.stack_facts.specs.Facts as spec;
ghost use Rattle.stack_facts.specs.Sets.{holds_in, fact_at, place_of, higher_of, IsPlain, IsBest};

use crate::changes::{is_below, writes};
use crate::slots::place_of;
use crate::values::{Change, Slot};
use insn_effects::{Effect, NONE};
use number_sets::Numbers;

/// Whether a register has its entry value.
#[inline(always)]
pub(crate) fn has_entry<B: Numbers>(slots: &[Slot], bits: &B, register: u8) -> bool
    ensures { result ≡ holds_in slots.now (B.list bits.now) (spec.entry register) }
{
    0 < register && register < NONE && bits.has(register as usize - 1)
}

/// Whether the bytes at a distance hold the entry value of a register.
#[inline(always)]
pub(crate) fn has_slot<B: Numbers>(slots: &[Slot], bits: &B, distance: u64, register: u8) -> bool
    ensures { result ≡ holds_in slots.now (B.list bits.now) (spec.slot distance register) }
{
    let at = place_of(slots, distance, register);
    at < slots.len() && bits.has(6 + at)
}

/// Whether the slot at a place of the table stands.
#[inline(always)]
#[tactic(auto, using(crate::proofs::SlotLemmas::stands_there))]
pub(crate) fn has_slot_at<B: Numbers>(slots: &[Slot], bits: &B, at: usize) -> bool
    requires place { at < length slots.now }
    requires plain { IsPlain slots.now }
    ensures { result ≡ holds_in slots.now (B.list bits.now) (fact_at slots.now at) }
{
    bits.has(6 + at)
}

#[inline(always)]
fn loads_own<B: Numbers>(slots: &[Slot], bits: &B, loaded: Option<Slot>, register: u8) -> bool
    ensures { result ≡ spec.loads_own loaded (holds_in slots.now (B.list bits.now)) register }
{
    match loaded {
        None => false,
        Some(s) => s.register == register && has_slot(slots, bits, s.distance, register),
    }
}

/// Whether a register has its entry value after an item.
#[inline(always)]
pub(crate) fn entry_after<B: Numbers>(
    slots: &[Slot],
    effect: &Effect,
    change: &Change,
    before: &B,
    register: u8,
) -> bool
    requires { register < 7 }
    ensures { result ≡ spec.facts_after (places.writes (followed_by effect.now)) change.now
        (holds_in slots.now (B.list before.now)) (spec.entry register) }
{
    let own = loads_own(slots, before, change.loaded, register);
    let kept = has_entry(slots, before, register);
    let written = writes(effect, register);
    own || (kept && !written)
}

/// The higher one of a distance that was found and another.
#[inline(always)]
pub(crate) fn higher(found: Option<u64>, distance: u64) -> u64
    ensures { result ≡ higher_of found distance }
{
    match found {
        None => distance,
        Some(best) => {
            if is_below(best, distance) {
                distance
            } else {
                best
            }
        }
    }
}

/// The greatest distance that was found, where one slot more is looked at.
#[tactic(auto, using(crate::proofs::BestLemmas::passes_other, crate::proofs::BestLemmas::passes_absent, crate::proofs::BestLemmas::counts_best))]
fn next_best<B: Numbers>(
    slots: &[Slot],
    bits: &B,
    register: u8,
    at: usize,
    found: Option<u64>,
) -> Option<u64>
    requires place { at < length slots.now }
    requires plain { IsPlain slots.now }
    requires best { IsBest slots.now (B.list bits.now) register at found }
    ensures { IsBest slots.now (B.list bits.now) register (at + 1) result }
{
    let slot = slots[at];
    if slot.register != register {
        return found;
    }
    if !has_slot_at(slots, bits, at) {
        return found;
    }
    Some(higher(found, slot.distance))
}

/// The greatest distance of a slot of a register that stands, of all slots.
#[tactic(auto, using(crate::proofs::BestLemmas::ends_best))]
fn highest<B: Numbers>(slots: &[Slot], bits: &B, register: u8) -> Option<u64>
    requires { IsPlain slots.now }
    ensures { spec.IsSlotOf (holds_in slots.now (B.list bits.now)) register result }
{
    let mut found = None;
    for at in 0..slots.len() {
        found = next_best(slots, bits, register, at, found);
    }
    found
}

/// The greatest distance of a slot of a register that stands.
#[tactic(auto, using(crate::proofs::QuietLemmas::short_best))]
pub(crate) fn greatest<B: Numbers>(slots: &[Slot], bits: &B, register: u8) -> Option<u64>
    requires { IsPlain slots.now }
    ensures { spec.IsSlotOf (holds_in slots.now (B.list bits.now)) register result }
{
    if bits.is_short() {
        return None;
    }
    highest(slots, bits, register)
}
