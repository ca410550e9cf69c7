//! Moves, addresses and sums of 64 bits.

ghost use Rattle.std.specs.Prelude.{◌≡◌, ◌-◌, ◌^◌, ◌==◌, not, false};
ghost use Rattle.x86_insn.specs.declared.insns.Insn.{Insn};
ghost use Rattle.x86_insn.specs.declared.amounts.Values.{Values};
ghost use Rattle.x86_insn.specs.Views.{memory, seen_at, displaced, view_of};
ghost use Rattle.insn_effects.specs.Decoding.{by_writes, lea_of, plus_of};
ghost use Rattle.insn_effects.specs.Effects.{written_effect, move_effect, move_by, move_from, mov_effect, register_in, effect_of};
ghost use Rattle.insn_effects.specs.Followed.{saved_number, Shows};
ghost use Rattle.insn_effects.specs.Actions.{plus};
ghost use Rattle.insn_effects.specs.Flows.{onward};

use crate::effects::{Effect, Role};
use crate::places::{Based, offset_in, place_in};
use crate::registers::{NONE, bit_of, kept, number_of};
use crate::writing::by_writes;
use x86_insn::{Insn, Slot, Values};

/// A register gets a number that is not followed.
#[tactic(auto, using(crate::proofs::Bits::one_bit))]
fn written(to: u8) -> Effect
    ensures { Shows result (written_effect to) onward false }
{
    Effect::writing(Role::Other, bit_of(number_of(to)))
}

/// A register gets what a base holds, and a number more.
#[tactic(auto, using(crate::proofs::Bits::one_bit, crate::proofs::Bits::moved_bits, crate::proofs::Bits::wrap_small))]
fn moved(to: u8, base: u8, amount: u64) -> Effect
    ensures { Shows result (move_effect to base amount) onward false }
{
    let register = number_of(to);
    let held = number_of(base);
    if register == NONE || held == NONE {
        return Effect::writing(Role::Other, bit_of(register));
    }
    Effect {
        role: Role::Move,
        written: 0,
        register,
        base: held,
        size: 0,
        amount,
    }
}

/// The same where base and number are known.
fn moved_by(to: u8, at: Option<Based>) -> Effect
    ensures { Shows result (move_by to at) onward false }
{
    match at {
        Some(at) => moved(to, at.base, at.displacement),
        None => written(to),
    }
}

/// A register gets the eight bytes in memory.
#[tactic(auto, using(crate::proofs::Bits::one_bit, crate::proofs::Bits::wrap_small))]
fn loaded(to: u8, insn: &Insn, values: &Values) -> Effect
    ensures { let held = displaced insn.now.address.base values.now.displacement in
        Shows result (move_from to (memory insn.now.address held)) onward false }
{
    let Some(at) = place_in(insn, values) else {
        return written(to);
    };
    let register = kept(number_of(to));
    let base = number_of(at.base);
    if register == NONE || base == NONE {
        return written(to);
    }
    Effect {
        role: Role::Load,
        written: bit_of(register),
        register,
        base,
        size: 8,
        amount: at.displacement,
    }
}

/// A register gets what an operand shows.
fn moved_from(to: u8, insn: &Insn, values: &Values) -> Effect
    ensures { let from = seen_at insn.now values.now insn.now.second in
        Shows result (move_from to from) onward false }
{
    match insn.second {
        Slot::Register(reg) => moved(to, reg.number, 0),
        Slot::Memory => loaded(to, insn, values),
        _ => written(to),
    }
}

/// The number among the six of the register of an operand.
pub fn saved(slot: Slot) -> u8
    ensures { (insn : Insn) (values : Values) →
        result ≡ saved_number (register_in (seen_at insn values slot)) }
{
    match slot {
        Slot::Register(reg) => kept(number_of(reg.number)),
        _ => NONE,
    }
}

/// Memory gets the eight bytes that an operand shows.
#[tactic(auto, using(crate::proofs::Bits::wrap_small))]
fn saved_to(insn: &Insn, values: &Values) -> Effect
    ensures { let held = displaced insn.now.address.base values.now.displacement in
        let from = seen_at insn.now values.now insn.now.second in
        Shows result (mov_effect (memory insn.now.address held) from) onward false }
{
    let Some(at) = place_in(insn, values) else {
        return Effect::plain(Role::Other);
    };
    let base = number_of(at.base);
    if base == NONE {
        return Effect::plain(Role::Other);
    }
    Effect {
        role: Role::Store,
        written: 0,
        register: saved(insn.second),
        base,
        size: 8,
        amount: at.displacement,
    }
}

/// A `mov` of 64 bits.
pub fn mov(insn: &Insn, values: &Values) -> Effect
    ensures { let view = view_of insn.now values.now in
        Shows result (mov_effect view.first view.second) onward false }
{
    match insn.first {
        Slot::Register(reg) => moved_from(reg.number, insn, values),
        Slot::Memory => saved_to(insn, values),
        _ => Effect::plain(Role::Other),
    }
}

/// A `lea` of 64 bits.
pub fn lea(insn: &Insn, values: &Values) -> Effect
    ensures { let view = view_of insn.now values.now in
        Shows result (effect_of (lea_of view.first view.second (by_writes view))) onward false }
{
    match insn.first {
        Slot::Register(reg) => match insn.second {
            Slot::Memory => moved_by(reg.number, offset_in(insn, values)),
            _ => by_writes(insn, values),
        },
        _ => by_writes(insn, values),
    }
}

/// A register gets a number more, or one that is not followed.
fn summed(to: u8, amount: Option<u64>) -> Effect
    ensures { Shows result (effect_of (plus to amount)) onward false }
{
    match amount {
        Some(amount) => moved(to, to, amount),
        None => written(to),
    }
}

/// An `add` of 64 bits.
pub fn add(insn: &Insn, values: &Values) -> Effect
    ensures { let view = view_of insn.now values.now in
        let action = plus_of view.first view.second (λ n. n) (by_writes view) in
        Shows result (effect_of action) onward false }
{
    match insn.first {
        Slot::Register(reg) => match insn.second {
            Slot::Immediate => summed(reg.number, values.immediate),
            _ => by_writes(insn, values),
        },
        _ => by_writes(insn, values),
    }
}

/// A register gets a number less.
#[tactic(auto, using(crate::proofs::Bits::one_bit, crate::proofs::Bits::moved_bits))]
fn lowered(to: u8, amount: u64) -> Effect
    ensures { Shows result (move_effect to to (2 ^ 64 - amount)) onward false }
{
    let register = number_of(to);
    if register == NONE {
        return written(to);
    }
    Effect {
        role: Role::Move,
        written: 0,
        register,
        base: register,
        size: 0,
        amount: amount.wrapping_neg(),
    }
}

/// A `sub` of 64 bits.
pub fn sub(insn: &Insn, values: &Values) -> Effect
    ensures { let view = view_of insn.now values.now in
        let action = plus_of view.first view.second (λ n. 2 ^ 64 - n) (by_writes view) in
        Shows result (effect_of action) onward false }
{
    match insn.first {
        Slot::Register(reg) => match insn.second {
            Slot::Immediate => match values.immediate {
                Some(amount) => lowered(reg.number, amount),
                None => written(reg.number),
            },
            _ => by_writes(insn, values),
        },
        _ => by_writes(insn, values),
    }
}
