//! The operand size of the rows of a name that take such operands, found by the keys of the rows.

ghost use Rattle.std.specs.Prelude.{◌≡◌, ◌<◌, ◌&&◌};
ghost use Rattle.x86_lookup.specs.Forms.{holds, holds_at, hold_all, is_form_of, with_size, AreSizes};
ghost use Rattle.x86_lookup.specs.Keys.{the_keys, either, register_sort, slot_sort, has_bit, shows, AreSlotSorts};

use crate::ranges::{rows, rows_of};
use crate::row_keys::{KEYS, Key};
use x86_insn::{Class, Insn, Mnemonic, Slot};
use x86_table::{Pattern, Row};

/// The keys of the rows, in order.
#[tactic(auto, unfolding(crate::specs::Keys::the_keys))]
pub fn keys() -> &'static [Key]
    ensures { result.now ≡ the_keys }
{
    &KEYS
}

/// One of three by two tests.
#[inline(always)]
fn either(is_first: bool, is_second: bool, first: u8, second: u8, third: u8) -> u8
    requires { (first < 16) × (second < 16) × (third < 16) }
    ensures value { result ≡ either is_first is_second first second third }
    ensures small { result < 16 }
{
    if is_first {
        first
    } else if is_second {
        second
    } else {
        third
    }
}

/// The sort of a register.
#[inline(always)]
pub fn register_sort(class: Class, number: u8) -> u8
    ensures value { result ≡ register_sort class number }
    ensures small { result < 16 }
{
    match class {
        Class::Byte | Class::High => either(number == 0, number == 1, 7, 8, 1),
        Class::Word => either(number == 0, false, 9, 3, 3),
        Class::Long => either(number == 0, false, 10, 4, 4),
        Class::Quad => either(number == 0, false, 11, 5, 5),
        Class::Xmm => either(number == 0, false, 2, 6, 6),
    }
}

/// The sort of an operand of which only the kind is known.
#[inline(always)]
fn slot_sort(slot: Slot) -> u8
    ensures value { result ≡ slot_sort slot }
    ensures small { result < 16 }
{
    match slot {
        Slot::Absent => 0,
        Slot::Register(reg) => register_sort(reg.class, reg.number),
        Slot::Memory => 12,
        Slot::Target => 14,
        Slot::Immediate => 15,
    }
}

/// Whether the bit at this place is 1.
#[inline(always)]
pub fn has_bit(bits: u16, at: u8) -> bool
    requires { at < 16 }
    ensures { result ≡ has_bit bits at }
{
    (bits >> at) % 2 == 1
}

/// The sorts of three operands.
#[derive(Clone, Copy)]
struct SlotSorts(u8, u8, u8);

/// The sorts of an instruction's operands.
#[inline(always)]
fn sorts_of(insn: &Insn) -> SlotSorts
    ensures { AreSlotSorts result insn.now }
{
    SlotSorts(
        slot_sort(insn.first),
        slot_sort(insn.second),
        slot_sort(insn.third),
    )
}

/// Whether the row of the key shows operands of these sorts.
#[inline(always)]
fn shows(key: &Key, sorts: SlotSorts) -> bool
    requires { (sorts.0 < 16) × (sorts.1 < 16) × (sorts.2 < 16) }
    ensures { result ≡ shows key.now sorts.0 sorts.1 sorts.2 }
{
    has_bit(key.first, sorts.0) && (has_bit(key.second, sorts.1) && has_bit(key.third, sorts.2))
}

/// Whether the pattern takes memory of so many bits.
#[inline(always)]
fn holds(bits: u8, pattern: Pattern) -> bool
    ensures { result ≡ holds bits pattern }
{
    match pattern {
        Pattern::RegMem(_, bytes) => {
            bits == 0 || (bytes == 0 || 8 * u16::from(bytes) == u16::from(bits))
        }
        _ => true,
    }
}

/// Whether the operand, if it is memory, may have so many bits.
#[inline(always)]
fn holds_at(bits: u8, slot: Slot, pattern: Pattern) -> bool
    ensures { result ≡ holds_at bits slot pattern }
{
    match slot {
        Slot::Memory => holds(bits, pattern),
        _ => true,
    }
}

/// Whether what is memory of the operands may have so many bits.
#[inline(always)]
fn hold_all(bits: u8, insn: &Insn, row: &Row) -> bool
    ensures { result ≡ hold_all bits insn.now.first insn.now.second insn.now.third row.now }
{
    bits == 0
        || (holds_at(bits, insn.first, row.first)
            && (holds_at(bits, insn.second, row.second) && holds_at(bits, insn.third, row.third)))
}

/// The sizes of the rows that take such operands.
#[derive(Clone, Copy)]
pub enum FormSize {
    /// No row takes them.
    Absent,
    /// All that do have this size.
    One(u8),
    /// Not all of them have one size.
    Several,
}

/// The sizes when one more row has this size.
#[inline(always)]
fn with_size(found: FormSize, size: u8) -> FormSize
    ensures { result ≡ with_size found size }
{
    match found {
        FormSize::Absent => FormSize::One(size),
        FormSize::One(old) => if old == size {
            FormSize::One(old)
        } else {
            FormSize::Several
        },
        FormSize::Several => FormSize::Several,
    }
}

/// Whether the row, which has this key, takes operands of these sorts, and memory of so many bits.
#[inline(always)]
fn is_taken(key: &Key, row: &Row, sorts: SlotSorts, insn: &Insn, bits: u8) -> bool
    requires { AreSlotSorts sorts insn.now }
    ensures { result ≡ shows key.now sorts.0 sorts.1 sorts.2
        && hold_all bits insn.now.first insn.now.second insn.now.third row.now }
{
    shows(key, sorts) && hold_all(bits, insn, row)
}

/// The size of the rows of the name that take the operands of the instruction, and memory of so many
/// bits.
pub fn form_size(name: Mnemonic, insn: &Insn, bits: u8) -> FormSize
    ensures { AreSizes
        (is_form_of bits name.0 insn.now.first insn.now.second insn.now.third) result }
{
    let table = rows();
    let keys = keys();
    let range = rows_of(&name);
    let sorts = sorts_of(insn);
    let mut found = FormSize::Absent;
    for i in range.start as usize..range.stop as usize {
        if is_taken(&keys[i], &table[i], sorts, insn, bits) {
            found = with_size(found, keys[i].size);
        }
    }
    found
}
