//! What an instruction writes, by its row in the table.

ghost use Rattle.std.specs.Prelude.{◌≡◌, ◌+◌, false};
ghost use Rattle.x86_insn.specs.declared.amounts.Values.{Values};
ghost use Rattle.x86_insn.specs.Views.{seen_at, view_of};
ghost use Rattle.x86_lookup.specs.Writing.{reg_in, part_is, writes_general};
ghost use Rattle.insn_effects.specs.Seven.{bits_of};
ghost use Rattle.insn_effects.specs.Listed.{writes_of};
ghost use Rattle.insn_effects.specs.Quiet.{implies_some, is_memory, is_quiet};
ghost use Rattle.insn_effects.specs.Decoding.{stored_in, by_writes};
ghost use Rattle.insn_effects.specs.Effects.{store_of, effect_of};
ghost use Rattle.insn_effects.specs.Followed.{stored, followed_store, wrote, followed_by, flow_by, unsupported_by, is_padding, is_data, Shows};
ghost use Rattle.insn_effects.specs.Flows.{onward};

use crate::effects::{Effect, Role};
use crate::places::place_in;
use crate::registers::{NONE, bit_if, bit_of, number_of};
use x86_insn::{Class, Insn, Slot, Values};
use x86_lookup::{Store, Writes, written};
use x86_table::mnemonics::integers::{CPUID, LEAVE, POP, POPF, PUSH, PUSHF};

/// What the instruction writes, whatever is known of its values.
#[tactic(auto, using(crate::proofs::Listing::listed))]
fn written_of(insn: &Insn) -> Writes
    ensures { (values : Values) → result ≡ writes_of (view_of insn.now values) }
{
    written(insn)
}

/// The registers of the seven that are written.
fn bits_written(writes: &Writes) -> u8
    ensures { result ≡ bits_of (writes_general writes.now) }
{
    bit_if(writes.general(4), 1)
        + (bit_if(writes.general(3), 2)
            + (bit_if(writes.general(5), 4)
                + (bit_if(writes.general(12), 8)
                    + (bit_if(writes.general(13), 16)
                        + (bit_if(writes.general(14), 32) + bit_if(writes.general(15), 64))))))
}

/// The register of the seven that the operand is, whole or in part.
#[tactic(auto, using(crate::proofs::Bits::one_bit, crate::proofs::Bits::high_bit, crate::proofs::Bits::no_high_bit, crate::proofs::Bits::low_bit))]
fn part_bit(slot: Slot) -> u8
    ensures { result ≡ bits_of (part_is (reg_in slot)) }
{
    match slot {
        Slot::Register(reg) => match reg.class {
            Class::Xmm => 0,
            Class::High => {
                if reg.number >= 4 {
                    bit_of(number_of(reg.number - 4))
                } else {
                    0
                }
            }
            _ => bit_of(number_of(reg.number)),
        },
        _ => 0,
    }
}

/// Whether rows of the name write registers of the seven that no operand names, or below the top of
/// the stack.
fn implies_some(name: u16) -> bool
    ensures { result ≡ implies_some name }
{
    (name >= PUSH && name <= POPF) || (name == LEAVE || name == CPUID)
}

/// Whether the operand is in memory.
fn is_memory(slot: Slot) -> bool
    ensures { result ≡ is_memory slot }
{
    matches!(slot, Slot::Memory)
}

/// Whether neither operands nor the row of the instruction name one of the seven as written.
fn is_quiet(insn: &Insn) -> bool
    ensures { result ≡ is_quiet insn.now }
{
    part_bit(insn.first) == 0 && (part_bit(insn.second) == 0 && !implies_some(insn.name.0))
}

/// The registers of the seven that the instruction writes.
#[tactic(auto, using(crate::proofs::Quiet::quiet_bits))]
pub fn bits(insn: &Insn) -> u8
    ensures { (values : Values) →
        result ≡ bits_of (writes_general (writes_of (view_of insn.now values))) }
{
    if is_quiet(insn) {
        return 0;
    }
    let writes = written_of(insn);
    bits_written(&writes)
}

/// These registers are written, and bytes are stored at a displacement from a base, if that is one
/// of the seven.
fn storing(written: u8, size: u8, base: u8, amount: u64) -> Effect
    ensures followed { followed_by result ≡ wrote written (stored base amount size 7) }
    ensures flow { flow_by result.role ≡ onward }
    ensures supported { unsupported_by result.role ≡ false }
    ensures no_padding { is_padding result.role ≡ false }
    ensures no_data { is_data result.role ≡ false }
{
    let role = if base == NONE {
        Role::Other
    } else {
        Role::Store
    };
    Effect {
        role,
        written,
        register: NONE,
        base,
        size,
        amount,
    }
}

/// The same of bytes in the first operand.
fn storing_first(written: u8, size: u8, insn: &Insn, values: &Values) -> Effect
    ensures followed { let first = seen_at insn.now values.now insn.now.first in
        followed_by result ≡ wrote written (followed_store (store_of (stored_in first size)) None) }
    ensures flow { flow_by result.role ≡ onward }
    ensures supported { unsupported_by result.role ≡ false }
    ensures no_padding { is_padding result.role ≡ false }
    ensures no_data { is_data result.role ≡ false }
{
    match insn.first {
        Slot::Memory => match place_in(insn, values) {
            Some(at) => storing(written, size, number_of(at.base), at.displacement),
            None => storing(written, 0, NONE, 0),
        },
        _ => storing(written, 0, NONE, 0),
    }
}

/// An instruction of which only what its row says counts.
fn by_row(insn: &Insn, values: &Values) -> Effect
    ensures { Shows result (effect_of (by_writes (view_of insn.now values.now))) onward false }
{
    let writes = written_of(insn);
    let written = bits_written(&writes);
    match writes.store {
        Store::Operand(size) => storing_first(written, size, insn, values),
        Store::Stack(size) => storing(written, size, 0, u64::from(size).wrapping_neg()),
        _ => storing(written, 0, NONE, 0),
    }
}

/// An instruction of which only what it writes and stores counts.
#[tactic(auto, using(crate::proofs::Quiet::quiet_effect))]
pub fn by_writes(insn: &Insn, values: &Values) -> Effect
    ensures { Shows result (effect_of (by_writes (view_of insn.now values.now))) onward false }
{
    if !is_memory(insn.first) && is_quiet(insn) {
        return Effect::plain(Role::Other);
    }
    by_row(insn, values)
}
