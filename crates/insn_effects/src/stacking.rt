//! Pushes and pops, and `leave`.

ghost use Rattle.std.specs.Prelude.{◌==◌, true, false};
ghost use Rattle.x86_insn.specs.declared.insns.Insn.{Insn};
ghost use Rattle.x86_insn.specs.declared.amounts.Values.{Values};
ghost use Rattle.x86_insn.specs.Views.{memory, seen_at, displaced};
ghost use Rattle.insn_effects.specs.Effects.{pop_effect, pop_from, pop_word_effect, push_effect, register_in};
ghost use Rattle.insn_effects.specs.Followed.{Shows};
ghost use Rattle.insn_effects.specs.Flows.{onward, is_rsp};

use crate::effects::{Effect, Role};
use crate::moving::saved;
use crate::places::place_in;
use crate::registers::{NONE, bit_of, kept, number_of};
use x86_insn::{Insn, Slot, Values};

/// A `push` of 64 bits.
pub fn push(insn: &Insn, values: &Values) -> Effect
    ensures { let first = seen_at insn.now values.now insn.now.first in
        Shows result (push_effect (register_in first)) onward false }
{
    let _values = *values;
    Effect {
        role: Role::Push,
        written: 0,
        register: saved(insn.first),
        base: NONE,
        size: 0,
        amount: 0,
    }
}

/// A `pop` of 64 bits into a register.
#[tactic(auto, using(crate::proofs::Bits::popped_bits))]
fn popped(register: u8) -> Effect
    ensures { Shows result (pop_from 4 register) onward (register == 4) }
{
    if register == 4 {
        return Effect::plain(Role::PopStack);
    }
    let number = kept(number_of(register));
    Effect {
        role: Role::Pop,
        written: bit_of(number),
        register: number,
        base: NONE,
        size: 0,
        amount: 0,
    }
}

/// A `pop` of 64 bits into memory.
#[tactic(auto, using(crate::proofs::Bits::wrap_small))]
fn popped_to(insn: &Insn, values: &Values) -> Effect
    ensures { let held = displaced insn.now.address.base values.now.displacement in
        Shows result (pop_effect (memory insn.now.address held)) onward false }
{
    let Some(at) = place_in(insn, values) else {
        return Effect::plain(Role::Pop);
    };
    let base = number_of(at.base);
    if base == NONE {
        return Effect::plain(Role::Pop);
    }
    let amount = if at.base == 4 {
        at.displacement.wrapping_add(8)
    } else {
        at.displacement
    };
    Effect {
        role: Role::PopMemory,
        written: 0,
        register: NONE,
        base,
        size: 8,
        amount,
    }
}

/// A `pop` of 64 bits.
pub fn pop(insn: &Insn, values: &Values) -> Effect
    ensures { let first = seen_at insn.now values.now insn.now.first in
        Shows result (pop_effect first) onward (is_rsp first) }
{
    match insn.first {
        Slot::Register(reg) => popped(reg.number),
        Slot::Memory => popped_to(insn, values),
        _ => Effect::plain(Role::Pop),
    }
}

/// A `pop` of another size: its register is written, and counts as loaded with no copy.
#[tactic(auto, using(crate::proofs::Bits::popped_bits))]
pub fn pop_word(first: Slot) -> Effect
    ensures { (insn : Insn) (values : Values) →
        Shows result (pop_word_effect (seen_at insn values first)) onward true }
{
    match first {
        Slot::Register(reg) => Effect::writing(Role::PopWord, bit_of(kept(number_of(reg.number)))),
        _ => Effect::plain(Role::PopWord),
    }
}

/// A `leave` of 64 bits.
pub fn leave() -> Effect
    ensures { Shows result (pop_from 5 5) onward false }
{
    Effect::writing(Role::Leave, 4)
}
