//! The distances after an item, and what two items' distances have both.

ghost use Rattle.std.specs.Prelude.{◌≡◌, ◌<◌, ◌≤◌, ℕ, false, IsTrue, IsFalse, None, Some, option_map, length, sum_by};
ghost use Rattle.insn_effects.specs.Followed.{followed_by};
ghost use Rattle.stack_depths.specs.Distances.{has_bit, unless_written, sum_of, moved_by, distance_after, entry_distance};
ghost use Rattle.stack_depths.specs.Accesses.{move_by};
ghost use Rattle.stack_depths.specs.States.{value_of, known, meet_of, held};

use crate::followed::{FollowedMove, followed_move, is_written};
use crate::values::Distance;
use code_functions::CodeItem;
use insn_effects::Effect;
use std::alloc::{AllocError, Global};
use work_lists::Analysis;

/// The distances that are known of the seven.
pub(crate) type Known = [Option<Distance>; 7];

/// The distance of a register that no move changes.
#[inline(always)]
fn unmoved(effect: &Effect, before: &Known, q: usize) -> Option<Distance>
    requires { q < 7 }
    ensures { value_of result
        ≡ unless_written (has_bit effect.now.written q) (known before.now q) }
{
    if is_written(effect, q) {
        None
    } else {
        before[q]
    }
}

/// What a base holds, and a number more.
#[inline(always)]
fn added(before: &Known, base: u8, add: u64) -> Option<Distance>
    ensures { value_of result ≡ sum_of (known before.now base) add }
{
    let base = base as usize;
    if base >= 7 {
        return None;
    }
    match before[base] {
        Some(d) => Some(Distance {
            value: d.value.wrapping_add(add),
        }),
        None => None,
    }
}

/// The distance of register q after this move of an item.
fn moved_by(
    made: Option<FollowedMove>,
    effect: &Effect,
    before: &Known,
    q: usize,
) -> Option<Distance>
    requires { q < 7 }
    ensures { value_of result ≡ moved_by (option_map move_by made)
        (has_bit effect.now.written q) (known before.now) q }
{
    match made {
        None => unmoved(effect, before, q),
        Some(m) => {
            if m.to as usize == q {
                added(before, m.base, m.add)
            } else {
                unmoved(effect, before, q)
            }
        }
    }
}

/// The distances after a move alone.
#[inline(always)]
#[tactic(auto, using(crate::proofs::DepthLemmas::moved_none, crate::proofs::DepthLemmas::moved_one))]
fn moved_one(made: FollowedMove, before: &Known) -> Known
    ensures long { length result ≡ 7 }
    ensures at { (q : ℕ) → q < 7
        → known result q ≡ moved_by (Some (move_by made)) false (known before.now) q }
{
    let to = made.to as usize;
    if to >= 7 {
        return *before;
    }
    let mut out = *before;
    out[to] = added(before, made.base, made.add);
    out
}

/// The distances after this move of an item that writes nothing else.
#[inline(always)]
fn moved_alone(made: Option<FollowedMove>, before: &Known) -> Known
    ensures long { length result ≡ 7 }
    ensures at { (q : ℕ) → q < 7
        → known result q ≡ moved_by (option_map move_by made) false (known before.now) q }
{
    match made {
        None => *before,
        Some(m) => moved_one(m, before),
    }
}

/// The distances after this move of an item, one by one.
fn moved_each(made: Option<FollowedMove>, effect: &Effect, before: &Known) -> Known
    ensures long { length result ≡ 7 }
    ensures at { (q : ℕ) → q < 7 → known result q ≡ moved_by (option_map move_by made)
        (has_bit effect.now.written q) (known before.now) q }
{
    let mut out = [None; 7];
    for q in 0..7 {
        out[q] = moved_by(made, effect, before, q);
    }
    out
}

/// The distances after an item.
#[inline(always)]
fn moved_all(effect: &Effect, before: &Known) -> Known
    ensures long { length result ≡ 7 }
    ensures at { (q : ℕ) → q < 7
        → known result q ≡ distance_after (followed_by effect.now) (known before.now) q }
{
    let made = followed_move(effect);
    let written = effect.written;
    if written == 0 {
        return moved_alone(made, before);
    }
    moved_each(made, effect, before)
}

/// Whether a distance is lost where it meets another.
#[inline(always)]
fn is_lost(a: Option<Distance>, b: Option<Distance>) -> bool
    ensures lost { IsTrue result → (meet_of (value_of a) (value_of b) ≡ None) × (held a ≡ 1) }
    ensures kept { IsFalse result → meet_of (value_of a) (value_of b) ≡ value_of a }
{
    match a {
        None => false,
        Some(x) => match b {
            None => true,
            Some(y) => x.value != y.value,
        },
    }
}

/// Whether no distance is lost where distances meet others.
fn loses_none(state: &Known, from: &Known) -> bool
    ensures { IsTrue result → (q : ℕ) → q < 7
        → known state.now q ≡ meet_of (known state.now q) (known from.now q) }
{
    for q in 0..7 {
        if is_lost(state[q], from[q]) {
            return false;
        }
    }
    true
}

/// Leaves each distance that both have, and tells whether that is less.
fn meet_all(into: &mut Known, from: &Known) -> bool
    ensures both { (q : ℕ) → q < 7
        → known into.new q ≡ meet_of (known into.old q) (known from.now q) }
    ensures less { IsTrue result → sum_by held into.new < sum_by held into.old }
    ensures same { IsFalse result → into.new ≡ into.old }
{
    let mut changed = false;
    for q in 0..7 {
        let lost = is_lost(into[q], from[q]);
        if lost {
            into[q] = None;
            changed = true;
        }
    }
    changed
}

fn at_entry() -> Known
    ensures long { length result ≡ 7 }
    ensures at { (q : ℕ) → known result q ≡ entry_distance q }
{
    let mut out = [None; 7];
    out[0] = Some(Distance {
        value: 0u64.wrapping_sub(8),
    });
    out
}

/// The items of a function, whose distances are traced.
#[derive(Clone, Copy)]
pub(crate) struct Tracing<'a> {
    pub(crate) items: &'a [CodeItem],
}

impl<'a> Analysis for Tracing<'a> {
    ghost use Rattle.stack_depths.specs.States.{depth_rules};

    type State = [Option<Distance>; 7];

    ghost rules = { λ tracing. depth_rules tracing.items.now };

    fn enter(&self, _alloc: Global) -> Result<[Option<Distance>; 7], AllocError> {
        Ok(at_entry())
    }

    #[inline(always)]
    fn after(
        &self,
        _alloc: Global,
        item: usize,
        before: &[Option<Distance>; 7],
    ) -> Result<[Option<Distance>; 7], AllocError> {
        match self.items.get(item) {
            None => Ok(*before),
            Some(found) => Ok(moved_all(&found.effect, before)),
        }
    }

    #[inline(always)]
    fn copy(
        &self,
        _alloc: Global,
        from: &[Option<Distance>; 7],
    ) -> Result<[Option<Distance>; 7], AllocError> {
        Ok(*from)
    }

    #[inline(always)]
    fn keeps(&self, state: &[Option<Distance>; 7], from: &[Option<Distance>; 7]) -> bool {
        loses_none(state, from)
    }

    fn meet(
        &self,
        _alloc: Global,
        into: &mut [Option<Distance>; 7],
        from: &[Option<Distance>; 7],
    ) -> Result<bool, AllocError> {
        Ok(meet_all(into, from))
    }
}
