//! The slots with the greatest distances.

ghost use Rattle.std.specs.Prelude.{◌≡◌, ◌<◌, ◌+◌, ℕ, None, get_or, length};
ghost use Rattle.stack_facts.specs.Facts.{IsSlotOf};
ghost use Rattle.stack_facts.specs.Sets.{holds_in, IsPlain, AreBest};

use crate::passing::{has_slot_at, higher};
use crate::values::Slot;
use number_sets::Numbers;

/// No distance of any register.
#[inline(always)]
pub(crate) fn no_slots() -> [Option<u64>; 7]
    ensures long { length result ≡ 7 }
    ensures none { (r : ℕ) → get_or result r None ≡ None }
{
    [None; 7]
}

/// The greatest distances that were found, where one slot more is looked at.
#[inline(always)]
#[tactic(auto, using(crate::proofs::BestLemmas::passes_absent_all, crate::proofs::BestLemmas::passes_other_all, crate::proofs::BestLemmas::counts_all))]
fn count_slot<B: Numbers>(slots: &[Slot], bits: &B, at: usize, found: &mut [Option<u64>; 7])
    requires place { at < length slots.now }
    requires plain { IsPlain slots.now }
    requires best { AreBest slots.now (B.list bits.now) at found.old }
    ensures { AreBest slots.now (B.list bits.now) (at + 1) found.new }
{
    if !has_slot_at(slots, bits, at) {
        return;
    }
    let slot = slots[at];
    if slot.register >= 7 {
        return;
    }
    let register = slot.register as usize;
    found[register] = Some(higher(found[register], slot.distance));
}

/// For each of the seven registers the greatest distance of a slot that stands.
#[tactic(auto, using(crate::proofs::BestLemmas::begins_all, crate::proofs::BestLemmas::ends_all, crate::proofs::BestLemmas::short_all))]
pub(crate) fn each_highest<B: Numbers>(slots: &[Slot], bits: &B) -> [Option<u64>; 7]
    requires { IsPlain slots.now }
    ensures { (r : ℕ) → r < 7
        → IsSlotOf (holds_in slots.now (B.list bits.now)) r (get_or result r None) }
{
    let mut found = no_slots();
    if bits.is_short() {
        return found;
    }
    for at in 0..slots.len() {
        count_slot(slots, bits, at, &mut found);
    }
    found
}
