//! What is asked of an item for its faults.

ghost use Rattle.std.specs.Prelude.{◌≡◌, ◌<◌, ℕ, IsTrue, IsFalse, Some, true, false};
ghost use Rattle.insn_effects.specs.Followed.{followed_by, stores_by, is_data, unsupported_by};
ghost use Rattle.stack_facts.specs.Places.{is_saved, stored_by};
ghost use Rattle.stack_facts.specs.Facts as facts;
ghost use Rattle.scfi_pass.specs.Faults as spec;
ghost use Rattle.scfi_pass.specs.Looking.{seen};

use crate::looking::Looked;
use insn_effects::Role;
use stack_facts::{is_below, overlaps, stack_after, stored_at};

/// The distance of rsp at entry and at each exit.
pub(crate) const AT_EXIT: u64 = u64::MAX - 7;

/// Whether a register has neither a slot nor its entry value.
fn is_lost(looked: &Looked, register: u8) -> bool
    ensures lost { IsTrue result → spec.IsLost (seen looked.now).stands register }
    ensures kept { IsFalse result → spec.IsLost (seen looked.now).stands register → ⊥ }
{
    if looked.facts.has_entry(looked.place, register) {
        return false;
    }
    match looked.facts.slot_of(looked.place, register) {
        None => true,
        Some(_) => false,
    }
}

/// The first register that has neither a slot nor its entry value, or 7.
pub(crate) fn first_lost(looked: &Looked) -> u8
    ensures some { 0 < result }
    ensures lost { result < 7 → spec.IsLost (seen looked.now).stands result }
    ensures first { (q : ℕ) → is_saved q ≡ true → q < result
        → spec.IsLost (seen looked.now).stands q → ⊥ }
{
    for register in 1..7u8 {
        if is_lost(looked, register) {
            return register;
        }
    }
    7
}

/// The first register that does not have its entry value, or 7.
pub(crate) fn first_changed(looked: &Looked) -> u8
    ensures some { 0 < result }
    ensures changed { result < 7
        → (seen looked.now).stands (facts.entry result) ≡ false }
    ensures first { (q : ℕ) → is_saved q ≡ true → q < result
        → (seen looked.now).stands (facts.entry q) ≡ false → ⊥ }
{
    for register in 1..7u8 {
        if !looked.facts.has_entry(looked.place, register) {
            return register;
        }
    }
    7
}

pub(crate) fn is_return(role: Role) -> bool
    ensures { result ≡ spec.is_return role }
{
    match role {
        Role::Return | Role::ReturnPopping => true,
        _ => false,
    }
}

pub(crate) fn is_above(distance: Option<u64>) -> bool
    ensures above { IsTrue result → spec.IsAbove distance }
    ensures other { IsFalse result → spec.IsAbove distance → ⊥ }
{
    match distance {
        None => false,
        Some(distance) => is_below(AT_EXIT, distance),
    }
}

fn stores_there(looked: &Looked) -> bool
    ensures { result ≡ facts.is_touched (stored_by
        (stores_by looked.now.item.effect.role looked.now.item.effect)
        (seen looked.now).known) spec.at_exit }
{
    match stored_at(looked.depths, looked.place, &looked.item.effect) {
        None => false,
        Some(span) => overlaps(span.start, span.size, AT_EXIT),
    }
}

/// Whether the return address is overwritten, or rsp rises above it.
pub(crate) fn overwrites(looked: &Looked) -> bool
    ensures bad { IsTrue result → spec.Overwrites (seen looked.now) }
    ensures good { IsFalse result → spec.Overwrites (seen looked.now) → ⊥ }
{
    if stores_there(looked) {
        return true;
    }
    if is_return(looked.item.effect.role) {
        return false;
    }
    is_above(stack_after(looked.depths, looked.place, &looked.item.effect))
}

pub(crate) fn is_data(role: Role) -> bool
    ensures { result ≡ is_data role }
{
    match role {
        Role::Data => true,
        _ => false,
    }
}

pub(crate) fn is_unsupported(role: Role) -> bool
    ensures { result ≡ unsupported_by role }
{
    match role {
        Role::PopStack | Role::PushWord | Role::PopWord | Role::ReturnPopping => true,
        _ => false,
    }
}

/// Whether rsp or a callee-saved register is not as at entry after an item.
pub(crate) fn is_changed_after(looked: &Looked) -> bool
    ensures changed { IsTrue result → spec.IsChangedAfter (seen looked.now) }
    ensures same { IsFalse result → spec.IsChangedAfter (seen looked.now) → ⊥ }
{
    match stack_after(looked.depths, looked.place, &looked.item.effect) {
        None => true,
        Some(distance) => distance != AT_EXIT || loses_entry(looked),
    }
}

/// Whether a register has its entry value after an item.
#[tactic(auto, unfolding(crate::specs::Faults::stands_after))]
fn keeps_entry(looked: &Looked, register: u8) -> bool
    requires { register < 7 }
    ensures { result ≡ spec.stands_after (seen looked.now) (facts.entry register) }
{
    looked
        .facts
        .has_entry_after(looked.depths, looked.place, &looked.item.effect, register)
}

/// Whether a callee-saved register does not have its entry value after an item.
fn loses_entry(looked: &Looked) -> bool
    ensures lost { IsTrue result → (r : ℕ) × (is_saved r ≡ true)
        × (spec.stands_after (seen looked.now) (facts.entry r) ≡ false) }
    ensures kept { IsFalse result → (r : ℕ) → is_saved r ≡ true
        → spec.stands_after (seen looked.now) (facts.entry r) ≡ true }
{
    for register in 1..7u8 {
        if !keeps_entry(looked, register) {
            return true;
        }
    }
    false
}

fn is_beyond(distance: Option<u64>) -> bool
    ensures beyond { IsTrue result → (d : ℕ) × (distance ≡ Some d) × (spec.is_beyond d ≡ true) }
    ensures near { IsFalse result → (d : ℕ) → distance ≡ Some d → spec.is_beyond d ≡ false }
{
    match distance {
        None => false,
        Some(distance) => distance.wrapping_add(1 << 30) > 1 << 31,
    }
}

/// Whether a distance is beyond 2^30 either way.
#[inline(always)]
pub(crate) fn is_far(looked: &Looked) -> bool
    ensures far { IsTrue result → spec.IsFar (seen looked.now).known }
    ensures near { IsFalse result → spec.IsFar (seen looked.now).known → ⊥ }
{
    for register in 0..7u8 {
        if is_beyond(looked.depths.distance(looked.place, register)) {
            return true;
        }
    }
    false
}
