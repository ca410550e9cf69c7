//! The slots with the greatest distances, where they are too many for a word.

ghost use Rattle.std.specs.Prelude.{◌≡◌, ◌<◌, ◌+◌, ℕ, None, get_or, length};
ghost use Rattle.stack_facts.specs.Facts.{IsSlotOf};
ghost use Rattle.stack_facts.specs.Sets.{holds_in};
ghost use Rattle.stack_facts.specs.Ranks.{IsRanked};

use crate::finding::no_slots;
use crate::ranking::count_before;
use crate::values::Slot;
use number_sets::NumberSet;

/// The greatest distance of a slot of a register that stands.
#[tactic(auto, using(crate::proofs::LastLemmas::last_other))]
pub(crate) fn greatest_in(slots: &[Slot], bits: &NumberSet, register: u8) -> Option<u64>
    requires { IsRanked slots.now }
    ensures { IsSlotOf (holds_in slots.now bits.now) register result }
{
    if register >= 7 {
        return None;
    }
    let first = count_before(slots, register, 0);
    let past = count_before(slots, register + 1, 0);
    match bits.last(6 + first, 6 + past) {
        None => None,
        Some(k) => Some(slots[k - 6].distance),
    }
}

/// For each of the seven registers the greatest distance of a slot that stands.
pub(crate) fn each_greatest(slots: &[Slot], bits: &NumberSet) -> [Option<u64>; 7]
    requires { IsRanked slots.now }
    ensures { (r : ℕ) → r < 7
        → IsSlotOf (holds_in slots.now bits.now) r (get_or result r None) }
{
    let mut found = no_slots();
    for register in 0..7u8 {
        found[register as usize] = greatest_in(slots, bits, register);
    }
    found
}
