//! What an item does at the distances that are known.

ghost use Rattle.std.specs.Prelude.{◌≡◌, ◌<◌, ◌+◌, ◌%◌, ◌^◌, ℕ, false, option_map, if◌then◌else◌, None, IsTrue};
ghost use Rattle.insn_effects.specs.Followed.{followed_by, stores_by, loads_by, moves_by};
ghost use Rattle.stack_depths.specs.Accesses.{move_by, store_by, load_by};
ghost use Rattle.stack_depths.specs.Distances.{has_bit, distance_after, moved_by};
ghost use Rattle.stack_depths.specs.States.{distances_in};
ghost use Rattle.stack_facts.specs.Places as spec;

use crate::values::{Change, Clauses, Slot, Span};
use insn_effects::{Effect, NONE, Role};
use stack_depths::{
    DepthTable, FollowedAccess, FollowedMove, followed_load, followed_move, followed_store,
    is_call, is_written,
};

/// The distance of an address, if it is fixed.
#[inline(always)]
fn fixed(depths: &DepthTable, item: usize, base: u8, displacement: u64) -> Option<u64>
    ensures { result ≡ spec.fixed (distances_in depths.now item) base displacement }
{
    match depths.distance(item, base) {
        Some(distance) => Some(distance.wrapping_add(displacement)),
        None => None,
    }
}

#[inline(always)]
fn span_of(depths: &DepthTable, item: usize, store: Option<FollowedAccess>) -> Option<Span>
    ensures { result ≡ spec.stored_by (option_map store_by store) (distances_in depths.now item) }
{
    match store {
        None => None,
        Some(s) => match fixed(depths, item, s.base, s.displacement) {
            None => None,
            Some(start) => Some(Span {
                start,
                size: s.size,
            }),
        },
    }
}

/// The bytes that an item stores at a fixed address.
#[inline(always)]
pub fn stored_at(depths: &DepthTable, item: usize, effect: &Effect) -> Option<Span>
    ensures { result
        ≡ spec.stored_by (stores_by effect.now.role effect.now) (distances_in depths.now item) }
{
    span_of(depths, item, followed_store(effect))
}

#[inline(always)]
fn is_saved(register: u8) -> bool
    ensures { result ≡ spec.is_saved register }
{
    0 < register && register < NONE
}

#[inline(always)]
fn is_slot_place(distance: u64) -> bool
    ensures { result ≡ spec.is_slot_place distance }
{
    distance % 8 == 0 && distance >= 1 << 63 && distance <= u64::MAX - 15
}

#[inline(always)]
fn slot_of(depths: &DepthTable, item: usize, store: Option<FollowedAccess>) -> Option<Slot>
    ensures { result ≡ spec.saved_by (option_map store_by store) (distances_in depths.now item) }
{
    match store {
        None => None,
        Some(s) => match fixed(depths, item, s.base, s.displacement) {
            None => None,
            Some(distance) => {
                if is_saved(s.register) && s.size == 8 && is_slot_place(distance) {
                    Some(Slot {
                        distance,
                        register: s.register,
                    })
                } else {
                    None
                }
            }
        },
    }
}

/// The slot that an item may make.
#[inline(always)]
pub(crate) fn saved_by(depths: &DepthTable, item: usize, effect: &Effect) -> Option<Slot>
    ensures { result
        ≡ spec.saved_by (stores_by effect.now.role effect.now) (distances_in depths.now item) }
{
    slot_of(depths, item, followed_store(effect))
}

#[inline(always)]
fn bytes_of(depths: &DepthTable, item: usize, load: Option<FollowedAccess>) -> Option<Slot>
    ensures { result ≡ spec.loaded_by (option_map load_by load) (distances_in depths.now item) }
{
    match load {
        None => None,
        Some(l) => match fixed(depths, item, l.base, l.displacement) {
            None => None,
            Some(distance) => Some(Slot {
                distance,
                register: l.register,
            }),
        },
    }
}

/// The bytes from which an item loads its register.
#[inline(always)]
fn loaded_by(depths: &DepthTable, item: usize, effect: &Effect) -> Option<Slot>
    ensures { result
        ≡ spec.loaded_by (loads_by effect.now.role effect.now) (distances_in depths.now item) }
{
    bytes_of(depths, item, followed_load(effect))
}

#[inline(always)]
fn stack_unmoved(depths: &DepthTable, item: usize, effect: &Effect) -> Option<u64>
    ensures { result
        ≡ moved_by None (has_bit effect.now.written 0) (distances_in depths.now item) 0 }
{
    if is_written(effect, 0) {
        None
    } else {
        depths.distance(item, 0)
    }
}

#[inline(always)]
fn stack_moved(
    depths: &DepthTable,
    item: usize,
    effect: &Effect,
    made: Option<FollowedMove>,
) -> Option<u64>
    ensures { result ≡ moved_by (option_map move_by made) (has_bit effect.now.written 0)
        (distances_in depths.now item) 0 }
{
    match made {
        None => stack_unmoved(depths, item, effect),
        Some(m) => {
            if m.to == 0 {
                fixed(depths, item, m.base, m.add)
            } else {
                stack_unmoved(depths, item, effect)
            }
        }
    }
}

/// The distance of rsp after an item.
#[inline(always)]
pub fn stack_after(depths: &DepthTable, item: usize, effect: &Effect) -> Option<u64>
    ensures { result ≡ distance_after (followed_by effect.now) (distances_in depths.now item) 0 }
{
    stack_moved(depths, item, effect, followed_move(effect))
}

/// A distance by which signed distances have the order of numbers.
#[inline(always)]
fn key_of(distance: u64) -> u64
    ensures { result ≡ (distance + 2 ^ 63) % 2 ^ 64 }
{
    distance.wrapping_add(1 << 63)
}

/// Whether a distance is below another.
#[inline(always)]
pub fn is_below(one: u64, other: u64) -> bool
    ensures { result ≡ spec.below one other }
{
    key_of(one) < key_of(other)
}

#[inline(always)]
fn floor_by(before: Option<u64>, after: Option<u64>) -> Option<u64>
    ensures { result ≡ spec.floor_by before after }
{
    match after {
        None => None,
        Some(now) => match before {
            None => Some(now),
            Some(was) => { if is_below(was, now) { Some(now) } else { None } }
        },
    }
}

#[inline(always)]
fn cleared_by(depths: &DepthTable, item: usize, effect: &Effect) -> Option<u64>
    ensures { result
        ≡ (if (followed_by effect.now).calls then distances_in depths.now item 0 else None) }
{
    if is_call(effect) {
        depths.distance(item, 0)
    } else {
        None
    }
}

/// The distance of rsp where it rose.
#[inline(always)]
fn risen(depths: &DepthTable, item: usize, effect: &Effect) -> Option<u64>
    ensures { result ≡ spec.floor_by (distances_in depths.now item 0)
        (distance_after (followed_by effect.now) (distances_in depths.now item) 0) }
{
    floor_by(depths.distance(item, 0), stack_after(depths, item, effect))
}

/// What an item does at the distances that are known there.
#[inline(always)]
pub(crate) fn change_by(
    clauses: Clauses,
    depths: &DepthTable,
    item: usize,
    effect: &Effect,
) -> Change
    ensures { result
        ≡ spec.change_by clauses (followed_by effect.now) (distances_in depths.now item) }
{
    let stored = stored_at(depths, item, effect);
    let cleared = cleared_by(depths, item, effect);
    let saved = saved_by(depths, item, effect);
    let loaded = loaded_by(depths, item, effect);
    match clauses {
        Clauses::Synthesis => Change {
            stored,
            cleared,
            saved,
            loaded,
            freed: loaded,
            floor: risen(depths, item, effect),
        },
        Clauses::Kept => Change {
            stored,
            cleared,
            saved,
            loaded,
            freed: None,
            floor: None,
        },
    }
}

fn moves_to(made: Option<FollowedMove>, register: u8) -> bool
    ensures { result ≡ spec.moves_to (option_map move_by made) register }
{
    match made {
        None => false,
        Some(m) => m.to == register,
    }
}

fn loads_to(load: Option<FollowedAccess>, register: u8) -> bool
    ensures { result ≡ spec.loads_to (option_map load_by load) register }
{
    match load {
        None => false,
        Some(l) => l.register == register,
    }
}

/// Whether an item writes a register, in any way.
pub(crate) fn writes(effect: &Effect, register: u8) -> bool
    requires { register < 7 }
    ensures { result ≡ spec.writes (followed_by effect.now) register }
{
    let moved = moves_to(followed_move(effect), register);
    let loaded = loads_to(followed_load(effect), register);
    moved || loaded || is_written(effect, register as usize)
}

fn moves_stack(made: Option<FollowedMove>) -> bool
    ensures { IsTrue result → (r : ℕ) → 0 < r
        → spec.moves_to (option_map move_by made) r ≡ false }
{
    match made {
        None => true,
        Some(m) => m.to == 0,
    }
}

fn loads_none(load: Option<FollowedAccess>) -> bool
    ensures { IsTrue result → option_map load_by load ≡ None }
{
    match load {
        None => true,
        Some(_) => false,
    }
}

/// Whether an item writes none of the six, by a look at its role.
#[tactic(auto, using(crate::proofs::QuietLemmas::none_written))]
pub(crate) fn writes_none(effect: &Effect) -> bool
    ensures { IsTrue result → (r : ℕ) → 0 < r → spec.writes (followed_by effect.now) r ≡ false }
{
    if effect.written >= 2 || !moves_stack(followed_move(effect)) {
        return false;
    }
    loads_none(followed_load(effect))
}

#[inline(always)]
fn is_quiet_role(role: Role) -> bool
    ensures { result ≡ spec.is_quiet_role role }
{
    match role {
        Role::Other | Role::Jump | Role::Branch | Role::Return | Role::Padding => true,
        _ => false,
    }
}

/// Whether nothing is followed of an item, by a look at its role.
#[inline(always)]
#[tactic(auto, using(crate::proofs::QuietLemmas::quiet_followed))]
pub fn is_quiet(effect: &Effect) -> bool
    ensures { IsTrue result → followed_by effect.now ≡ spec.nothing_followed }
{
    if effect.written != 0 {
        return false;
    }
    is_quiet_role(effect.role)
}

/// How far a distance is behind another.
#[inline(always)]
fn gap(one: u64, other: u64) -> u64
    ensures { result ≡ spec.gap one other }
{
    other.wrapping_sub(one)
}

/// Whether so many bytes meet the 8 bytes at another distance.
#[inline(always)]
#[tactic(auto, unfolding(crate::specs::Places::overlaps))]
pub fn overlaps(start: u64, size: u8, other: u64) -> bool
    ensures { result ≡ spec.overlaps start size other }
{
    gap(start, other) < u64::from(size) || gap(other, start) < 8
}
