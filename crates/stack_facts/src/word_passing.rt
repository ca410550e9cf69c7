//! The facts after an item, where they are the bits of a word.

ghost use Rattle.std.specs.Prelude.{◌≡◌, ◌+◌, ◌<◌, ◌≤◌, ◌==◌, ◌&&◌, ◌||◌, not, ℕ, Bool, true, false, List, get_or, length, option_map};
ghost use Rattle.insn_effects.specs.Followed.{followed_by};
ghost use Rattle.stack_depths.specs.Accesses.{move_by, load_by};
ghost use Rattle.stack_depths.specs.States.{distances_in};
ghost use Rattle.stack_facts.specs.Places as places;
ghost use Rattle.stack_facts.specs.Facts as spec;
ghost use Rattle.stack_facts.specs.Sets.{holds_in, fact_at, place_of, IsPlain};
ghost use Rattle.stack_facts.specs.Passing.{IsDropped, is_met, is_stored, is_lower, is_under, IsPut, IsMade, IsFreed};

use crate::changes::{change_by, is_below, is_quiet, overlaps};
use crate::passing::{has_entry, has_slot};
use crate::slots::place_of;
use crate::values::{Change, Clauses, Slot, Span};
use insn_effects::{Effect, NONE};
use number_sets::Word;
use stack_depths::{DepthTable, FollowedAccess, FollowedMove, followed_load, followed_move};

/// The entry values of a word, without one of a register.
#[inline(always)]
fn without(word: &Word, register: u8) -> Word
    ensures { (k : ℕ) → k < 6 → get_or result k false
        ≡ (get_or word.now k false && not (register == k + 1)) }
{
    if 0 < register && register < NONE {
        word.with(register as usize - 1, false)
    } else {
        word.again()
    }
}

/// Without one of a register that moves.
#[inline(always)]
fn without_moved(word: &Word, made: Option<FollowedMove>) -> Word
    ensures { (k : ℕ) → k < 6 → get_or result k false
        ≡ (get_or word.now k false && not (places.moves_to (option_map move_by made) (k + 1))) }
{
    match made {
        None => word.again(),
        Some(m) => without(word, m.to),
    }
}

/// Without one of a register that is loaded.
#[inline(always)]
fn without_loaded(word: &Word, load: Option<FollowedAccess>) -> Word
    ensures { (k : ℕ) → k < 6 → get_or result k false
        ≡ (get_or word.now k false && not (places.loads_to (option_map load_by load) (k + 1))) }
{
    match load {
        None => word.again(),
        Some(l) => without(word, l.register),
    }
}

/// The entry values that an item does not write.
#[inline(always)]
fn unwritten(word: &Word, effect: &Effect) -> Word
    ensures { (k : ℕ) → k < 6 → get_or result k false
        ≡ (get_or word.now k false && not (places.writes (followed_by effect.now) (k + 1))) }
{
    let other = word.without(effect.written);
    let unmoved = without_moved(&other, followed_move(effect));
    without_loaded(&unmoved, followed_load(effect))
}

/// The entry values of a word, and one of a register.
#[inline(always)]
fn with_entry(word: Word, register: u8) -> Word
    ensures { (k : ℕ) → k < 6 → get_or result k false
        ≡ ((register == k + 1) || get_or word k false) }
{
    if 0 < register && register < NONE {
        word.with(register as usize - 1, true)
    } else {
        word
    }
}

/// And one of a register that is loaded from its own slot.
#[inline(always)]
#[tactic(auto, using(crate::proofs::PassLemmas::own_loaded))]
fn with_loaded(slots: &[Slot], word: Word, loaded: Option<Slot>, before: &Word) -> Word
    ensures { (k : ℕ) → k < 6 → get_or result k false
        ≡ (spec.loads_own loaded (holds_in slots.now before.now) (k + 1)
        || get_or word k false) }
{
    match loaded {
        None => word,
        Some(s) => {
            if has_slot(slots, before, s.distance, s.register) {
                with_entry(word, s.register)
            } else {
                word
            }
        }
    }
}

/// The entry values after an item.
#[inline(always)]
#[tactic(auto, using(crate::proofs::PassLemmas::entry_after))]
fn entries_of(slots: &[Slot], effect: &Effect, change: &Change, before: &Word) -> Word
    ensures { (k : ℕ) → k < 6 → get_or result k false
        ≡ spec.facts_after (places.writes (followed_by effect.now)) change.now
        (holds_in slots.now before.now) (spec.entry (k + 1)) }
{
    with_loaded(slots, unwritten(before, effect), change.loaded, before)
}

/// Without the slot at a place, if the bytes meet it.
#[inline(always)]
#[tactic(auto, using(crate::proofs::PassLemmas::drops_one, crate::proofs::PassLemmas::drops_none))]
fn next_unmet(slots: &[Slot], out: Word, span: Span, at: usize) -> Word
    requires few { length slots.now < 58 }
    requires place { at < length slots.now }
    ensures { (word : List Bool) → IsDropped word out (is_met span slots.now) at
        → IsDropped word result (is_met span slots.now) (at + 1) }
{
    if overlaps(span.start, span.size, slots[at].distance) {
        out.with(6 + at, false)
    } else {
        out
    }
}

/// Without the slots that bytes meet.
#[inline(always)]
#[tactic(auto, using(crate::proofs::PassLemmas::drops_begin))]
fn unmet(slots: &[Slot], word: Word, span: Span) -> Word
    requires few { length slots.now < 58 }
    ensures { IsDropped word result (is_met span slots.now) (length slots.now) }
{
    let mut out = word;
    for at in 0..slots.len() {
        out = next_unmet(slots, out, span, at);
    }
    out
}

/// The same, if bytes are stored.
#[inline(always)]
#[tactic(auto, using(crate::proofs::PassLemmas::drops_nothing))]
fn untouched(slots: &[Slot], word: Word, stored: Option<Span>) -> Word
    requires few { length slots.now < 58 }
    ensures { IsDropped word result (is_stored stored slots.now) (length slots.now) }
{
    match stored {
        None => word,
        Some(span) => unmet(slots, word, span),
    }
}

/// Without the slot at a place, if it is below a distance.
#[inline(always)]
#[tactic(auto, using(crate::proofs::PassLemmas::drops_one, crate::proofs::PassLemmas::drops_none))]
fn next_from(slots: &[Slot], out: Word, limit: u64, at: usize) -> Word
    requires few { length slots.now < 58 }
    requires place { at < length slots.now }
    ensures { (word : List Bool) → IsDropped word out (is_lower limit slots.now) at
        → IsDropped word result (is_lower limit slots.now) (at + 1) }
{
    if is_below(slots[at].distance, limit) {
        out.with(6 + at, false)
    } else {
        out
    }
}

/// Without the slots below a distance.
#[tactic(auto, using(crate::proofs::PassLemmas::drops_begin))]
fn from_on(slots: &[Slot], word: Word, limit: u64) -> Word
    requires few { length slots.now < 58 }
    ensures { IsDropped word result (is_lower limit slots.now) (length slots.now) }
{
    let mut out = word;
    for at in 0..slots.len() {
        out = next_from(slots, out, limit, at);
    }
    out
}

/// The same, if the distance is known.
#[inline(always)]
#[tactic(auto, using(crate::proofs::PassLemmas::drops_nothing))]
fn not_below(slots: &[Slot], word: Word, limit: Option<u64>) -> Word
    requires few { length slots.now < 58 }
    ensures { IsDropped word result (is_under limit slots.now) (length slots.now) }
{
    match limit {
        None => word,
        Some(limit) => from_on(slots, word, limit),
    }
}

/// The same with a slot of the table, or without it.
#[inline(always)]
#[tactic(auto, using(crate::proofs::PassLemmas::puts_there, crate::proofs::PassLemmas::puts_none))]
fn with_slot(slots: &[Slot], word: Word, slot: Slot, bit: bool) -> Word
    requires plain { IsPlain slots.now }
    requires few { length slots.now < 58 }
    ensures { IsPut slots.now slot bit word result }
{
    let at = place_of(slots, slot.distance, slot.register);
    if at < slots.len() {
        word.with(6 + at, bit)
    } else {
        word
    }
}

/// The same with a slot that is made, where the register has its entry value.
#[inline(always)]
#[tactic(auto, using(crate::proofs::PassLemmas::saves_one, crate::proofs::PassLemmas::saves_unentered, crate::proofs::PassLemmas::saves_none))]
fn with_saved(slots: &[Slot], word: Word, saved: Option<Slot>, before: &Word) -> Word
    requires plain { IsPlain slots.now }
    requires few { length slots.now < 58 }
    ensures { IsMade slots.now saved before.now word result }
{
    match saved {
        None => word,
        Some(slot) => {
            if has_entry(slots, before, slot.register) {
                with_slot(slots, word, slot, true)
            } else {
                word
            }
        }
    }
}

/// Without a slot that stood, which a load frees.
#[inline(always)]
#[tactic(auto, using(crate::proofs::PassLemmas::loads_one, crate::proofs::PassLemmas::loads_unstood, crate::proofs::PassLemmas::loads_none))]
fn unfreed(slots: &[Slot], word: Word, freed: Option<Slot>, before: &Word) -> Word
    requires plain { IsPlain slots.now }
    requires few { length slots.now < 58 }
    ensures { IsFreed slots.now freed before.now word result }
{
    match freed {
        None => word,
        Some(slot) => {
            if has_slot(slots, before, slot.distance, slot.register) {
                with_slot(slots, word, slot, false)
            } else {
                word
            }
        }
    }
}

/// The facts after an item that makes a change.
#[inline(always)]
fn word_by(slots: &[Slot], effect: &Effect, change: &Change, before: &Word) -> Word
    requires plain { IsPlain slots.now }
    requires few { length slots.now < 58 }
    ensures entries { (k : ℕ) → k < 6 → get_or result k false
        ≡ spec.facts_after (places.writes (followed_by effect.now)) change.now
        (holds_in slots.now before.now) (spec.entry (k + 1)) }
    ensures slots { (k : ℕ) → k < length slots.now → get_or result (6 + k) false
        ≡ spec.facts_after (places.writes (followed_by effect.now)) change.now
        (holds_in slots.now before.now) (fact_at slots.now k) }
    ensures high { (k : ℕ) → 6 + length slots.now ≤ k → get_or result k false ≡ false }
{
    let entries = entries_of(slots, effect, change, before);
    let known = before.first(6 + slots.len());
    let stored = untouched(slots, known, change.stored);
    let cleared = not_below(slots, stored, change.cleared);
    let saved = with_saved(slots, cleared, change.saved, before);
    let freed = unfreed(slots, saved, change.freed, before);
    let risen = not_below(slots, freed, change.floor);
    risen.with_first(&entries)
}

/// The facts after an item, by these clauses, at the distances that are known there.
#[inline(always)]
pub(crate) fn word_after(
    clauses: Clauses,
    slots: &[Slot],
    depths: &DepthTable,
    item: usize,
    effect: &Effect,
    before: &Word,
) -> Word
    requires plain { IsPlain slots.now }
    requires few { length slots.now < 58 }
    requires saved { (n r : ℕ) → spec.is_at (places.change_by clauses (followed_by effect.now)
        (distances_in depths.now item)).saved n r ≡ true
        → place_of slots.now n r < length slots.now }
    ensures high { (k : ℕ) → 6 + length slots.now ≤ k → get_or result k false ≡ false }
    ensures at { (f : spec.Fact) → holds_in slots.now result f
        ≡ spec.facts_after (places.writes (followed_by effect.now))
        (places.change_by clauses (followed_by effect.now) (distances_in depths.now item))
        (holds_in slots.now before.now) f }
{
    if is_quiet(effect) {
        return before.first(6 + slots.len());
    }
    let change = change_by(clauses, depths, item, effect);
    word_by(slots, effect, &change, before)
}
