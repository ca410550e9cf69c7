//! Registers by their names, found by one look.

ghost use Rattle.std.specs.Prelude.{◌≡◌, ◌<◌, ◌*◌, ◌+◌, ◌^◌};
ghost use Rattle.std.specs.Char.{to_ascii_lowercase};
ghost use Rattle.att_operands.specs.Registers.{register_of};
ghost use Rattle.att_operands.specs.Slots.{the_slots, number_of, key_of, slot_of, held_by};

use crate::register_slots::REGISTER_SLOTS;
use x86_insn::{Reg, Segment};

/// What the name of a register names.
#[derive(Clone, Copy)]
pub enum NamedRegister {
    /// A register that may be an operand.
    Plain(Reg),
    /// `rip`: the address behind the instruction.
    Rip,
    /// A segment.
    Segment(Segment),
}

/// The number of a text, 0 where no text stands, and what the text names.
#[derive(Clone, Copy)]
pub struct RegisterSlot(pub u64, pub NamedRegister);

/// The table.
#[tactic(auto, unfolding(crate::specs::Slots::the_slots))]
fn slots() -> &'static [RegisterSlot; 256]
    ensures { result.now ≡ the_slots }
{
    &REGISTER_SLOTS
}

/// A number with one digit more, of base 256.
#[inline(always)]
fn with_byte(number: u64, byte: u8) -> u64
    requires { number < 2 ^ 48 }
    ensures value { result ≡ number * 256 + byte }
    ensures within { result < number * 256 + 256 }
{
    number * 256 + u64::from(byte)
}

/// The number of two bytes.
#[inline(always)]
fn two(first: u8, second: u8) -> u64
    ensures value { result ≡ (256 + first) * 256 + second }
    ensures within { result < 131072 }
{
    with_byte(with_byte(1, first), second)
}

/// The number of a text, or 0.
#[inline(always)]
#[tactic(auto, unfolding(crate::specs::Slots::number_of))]
fn number_of(text: &[u8]) -> u64
    ensures { result ≡ number_of text.now }
{
    match text {
        [a, b] => two(*a, *b),
        [a, b, c] => with_byte(two(*a, *b), *c),
        [a, b, c, d] => with_byte(with_byte(two(*a, *b), *c), *d),
        [a, b, c, d, e] => with_byte(with_byte(with_byte(two(*a, *b), *c), *d), *e),
        _ => 0,
    }
}

/// A byte in lower case.
#[inline(always)]
fn low(byte: u8) -> u8
    ensures { result ≡ to_ascii_lowercase byte }
{
    byte.to_ascii_lowercase()
}

/// The number of a text in lower case, or 0.
#[tactic(auto, unfolding(crate::specs::Slots::number_of))]
fn key_of(text: &[u8]) -> u64
    ensures { result ≡ key_of text.now }
{
    match text {
        [a, b] => two(low(*a), low(*b)),
        [a, b, c] => with_byte(two(low(*a), low(*b)), low(*c)),
        [a, b, c, d] => with_byte(with_byte(two(low(*a), low(*b)), low(*c)), low(*d)),
        [a, b, c, d, e] => {
            with_byte(
                with_byte(with_byte(two(low(*a), low(*b)), low(*c)), low(*d)),
                low(*e),
            )
        }
        _ => 0,
    }
}

/// The slot of a number.
#[tactic(auto, unfolding(crate::specs::Slots::slot_of))]
fn slot_of(key: u64) -> u8
    ensures { result ≡ slot_of key }
{
    (key.wrapping_mul(0x53D4_C15C_3FD0_71C5) >> 56) as u8
}

/// What the slot of a number has for it.
#[inline(always)]
fn held_by(key: u64) -> Option<NamedRegister>
    ensures { result ≡ held_by key }
{
    if key == 0 {
        return None;
    }
    match slots().get(usize::from(slot_of(key))) {
        Some(slot) => if slot.0 == key { Some(slot.1) } else { None },
        None => None,
    }
}

/// What the text names as a register, in either case, by its text in lower case.
#[inline(never)]
fn in_lower_case(text: &[u8]) -> Option<NamedRegister>
    ensures { result ≡ register_of text.now }
{
    held_by(key_of(text))
}

/// What the text names as a register, in either case: most texts are in lower case.
#[inline(always)]
pub fn register_named(text: &[u8]) -> Option<NamedRegister>
    ensures { result ≡ register_of text.now }
{
    match held_by(number_of(text)) {
        Some(named) => Some(named),
        None => in_lower_case(text),
    }
}
