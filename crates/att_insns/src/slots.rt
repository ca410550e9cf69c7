//! What stands in the slots of an instruction.

ghost use Rattle.std.specs.Prelude.{◌≡◌};
ghost use Rattle.att_insns.specs.Slots.{is_absent, is_register, is_immediate, is_memory, is_target};
ghost use Rattle.att_insns.specs.InsnTexts.{has_immediate, has_displacement};
ghost use Rattle.att_insns.specs.Rules.{is_quad, is_xmm, is_accumulator, is_xmm0};

use x86_insn::{Class, Slot};

/// Whether no operand stands there.
#[inline(always)]
pub fn is_absent(slot: Slot) -> bool
    ensures { result ≡ is_absent slot }
{
    matches!(slot, Slot::Absent)
}

/// Whether a register stands there.
#[inline(always)]
pub(crate) fn is_register(slot: Slot) -> bool
    ensures { result ≡ is_register slot }
{
    matches!(slot, Slot::Register(_))
}

/// Whether an immediate stands there.
#[inline(always)]
pub(crate) fn is_immediate(slot: Slot) -> bool
    ensures { result ≡ is_immediate slot }
{
    matches!(slot, Slot::Immediate)
}

/// Whether memory stands there.
#[inline(always)]
pub(crate) fn is_memory(slot: Slot) -> bool
    ensures { result ≡ is_memory slot }
{
    matches!(slot, Slot::Memory)
}

/// Whether a branch target stands there.
#[inline(always)]
fn is_target(slot: Slot) -> bool
    ensures { result ≡ is_target slot }
{
    matches!(slot, Slot::Target)
}

/// Whether an immediate stands in one of the two slots.
#[inline(always)]
pub fn has_immediate(first: Slot, second: Slot) -> bool
    ensures { result ≡ has_immediate first second }
{
    is_immediate(first) || is_immediate(second)
}

/// Whether memory or a branch target stands in one of the two slots.
#[inline(always)]
pub fn has_displacement(first: Slot, second: Slot) -> bool
    ensures { result ≡ has_displacement first second }
{
    (is_memory(first) || is_target(first)) || (is_memory(second) || is_target(second))
}

/// Whether a 64-bit register stands there.
#[inline(always)]
pub(crate) fn is_quad(slot: Slot) -> bool
    ensures { result ≡ is_quad slot }
{
    match slot {
        Slot::Register(reg) => matches!(reg.class, Class::Quad),
        _ => false,
    }
}

/// Whether a 128-bit register stands there.
#[inline(always)]
pub(crate) fn is_xmm(slot: Slot) -> bool
    ensures { result ≡ is_xmm slot }
{
    match slot {
        Slot::Register(reg) => matches!(reg.class, Class::Xmm),
        _ => false,
    }
}

/// Whether the accumulator of its class stands there.
#[inline(always)]
pub(crate) fn is_accumulator(slot: Slot) -> bool
    ensures { result ≡ is_accumulator slot }
{
    match slot {
        Slot::Register(reg) => reg.number == 0,
        _ => false,
    }
}

/// Whether the register xmm0 stands there.
#[inline(always)]
pub(crate) fn is_xmm0(slot: Slot) -> bool
    ensures { result ≡ is_xmm0 slot }
{
    match slot {
        Slot::Register(reg) => matches!(reg.class, Class::Xmm) && reg.number == 0,
        _ => false,
    }
}
