//! Which rows are tried: those whose keys admit the operands.

ghost use Rattle.std.specs.Prelude.{◌≡◌, ◌<◌};
ghost use Rattle.x86_insn.specs.Views.{seen_at, view_of};
ghost use Rattle.x86_lookup.specs.Keys.{has_bit};
ghost use Rattle.x86_parts.specs.Keys.{sort, has_word, admits, AreSorts};

use x86_insn::{Insn, Prefix, Slot, Values};
use x86_lookup::{Key, has_bit, register_sort};

/// The sort of an operand.
fn sort(slot: Slot, insn: &Insn, values: &Values) -> u8
    ensures value { result ≡ sort (seen_at insn.now values.now slot) }
    ensures small { result < 16 }
{
    match slot {
        Slot::Absent => 0,
        Slot::Register(reg) => register_sort(reg.class, reg.number),
        Slot::Immediate => match values.immediate {
            None => 13,
            Some(value) => if value == 1 { 15 } else { 13 },
        },
        Slot::Memory => 12,
        Slot::Target => 14,
    }
}

/// The sorts of three operands.
#[derive(Clone, Copy)]
pub struct Sorts {
    pub first: u8,
    pub second: u8,
    pub third: u8,
}

/// The sorts of an instruction's operands.
pub fn sorts_of(insn: &Insn, values: &Values) -> Sorts
    ensures are { AreSorts result (view_of insn.now values.now) }
{
    Sorts {
        first: sort(insn.first, insn, values),
        second: sort(insn.second, insn, values),
        third: sort(insn.third, insn, values),
    }
}

/// Whether the prefix is among these.
fn has_word(words: u8, prefix: Prefix) -> bool
    ensures { result ≡ has_word words prefix }
{
    match prefix {
        Prefix::Absent => true,
        Prefix::Lock => has_bit(words as u16, 0),
        Prefix::Rep => has_bit(words as u16, 1),
        Prefix::Repe => has_bit(words as u16, 2),
        Prefix::Repne => has_bit(words as u16, 2),
        Prefix::Notrack => has_bit(words as u16, 3),
    }
}

/// Whether a key admits the instruction of these sorts.
#[tactic(auto, unfolding(crate::specs::Keys::admits))]
pub fn admits(key: &Key, sorts: Sorts, insn: &Insn, values: &Values) -> bool
    requires { AreSorts sorts (view_of insn.now values.now) }
    ensures { result ≡ admits key.now (view_of insn.now values.now) }
{
    insn.size == key.size
        && (has_bit(key.first, sorts.first)
            && (has_bit(key.second, sorts.second)
                && (has_bit(key.third, sorts.third) && has_word(key.words, insn.prefix))))
}
