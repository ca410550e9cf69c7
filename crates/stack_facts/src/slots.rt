//! Tables of slots.

ghost use Rattle.std.specs.Prelude.{◌≡◌, ◌≤◌, ℕ, true, IfOk, length};
ghost use Rattle.stack_facts.specs.Places.{is_saved};
ghost use Rattle.stack_facts.specs.Facts.{is_at};
ghost use Rattle.stack_facts.specs.Sets.{place_of, is_slot, IsPlain, IsAdded, AreAdded};

use crate::values::Slot;
use std::alloc::AllocError;

/// Whether a slot is this one.
#[inline(always)]
pub(crate) fn is_slot(slot: &Slot, distance: u64, register: u8) -> bool
    ensures { result ≡ is_slot distance register slot.now }
{
    slot.distance == distance && slot.register == register
}

/// The place of a slot in a table, or the table's length.
pub(crate) fn place_of(slots: &[Slot], distance: u64, register: u8) -> usize
    ensures value { result ≡ place_of slots.now distance register }
    ensures inside { result ≤ length slots.now }
{
    for (at, slot) in slots.iter().enumerate() {
        if is_slot(slot, distance, register) {
            return at;
        }
    }
    slots.len()
}

/// Puts a slot behind those of a table, unless it is there.
fn add(slots: &mut Vec<Slot>, slot: Slot) -> Result<(), AllocError>
    requires plain { IsPlain slots.old.items }
    requires saved { is_saved slot.register ≡ true }
    ensures { IfOk result (λ _. IsAdded slots.old.items slot slots.new.items) }
{
    if place_of(slots, slot.distance, slot.register) == slots.len() {
        slots.push(slot)?;
    }
    Ok(())
}

/// The same, where a slot was found.
pub(crate) fn add_found(slots: &mut Vec<Slot>, found: Option<Slot>) -> Result<(), AllocError>
    requires plain { IsPlain slots.old.items }
    requires saved { (n r : ℕ) → is_at found n r ≡ true → is_saved r ≡ true }
    ensures { IfOk result (λ _. AreAdded slots.old.items found slots.new.items) }
{
    match found {
        None => {}
        Some(slot) => add(slots, slot)?,
    }
    Ok(())
}
