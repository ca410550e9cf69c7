//! Where operands in memory stand.

ghost use Rattle.std.specs.Prelude.{◌≡◌};
ghost use Rattle.x86_insn.specs.Views.{displaced};
ghost use Rattle.insn_effects.specs.Effects.{offset_on, place_on};

use x86_insn::{Base, Index, Insn, Values};

/// A register, by its number in the processor, and a number more.
#[derive(Clone, Copy)]
pub struct Based {
    pub base: u8,
    pub displacement: u64,
}

/// The base and the displacement of the instruction's effective address, if it is of just these,
/// and they are known.
pub fn offset_in(insn: &Insn, values: &Values) -> Option<Based>
    ensures { let held = displaced insn.now.address.base values.now.displacement in
        result ≡ offset_on insn.now.address held }
{
    match insn.address.index {
        Index::Absent => match insn.address.base {
            Base::Of(base) => match values.displacement {
                Some(displacement) => Some(Based { base, displacement }),
                None => None,
            },
            _ => None,
        },
        Index::By(_, _) => None,
    }
}

/// Those of its address in memory.
pub fn place_in(insn: &Insn, values: &Values) -> Option<Based>
    ensures { let held = displaced insn.now.address.base values.now.displacement in
        result ≡ place_on insn.now.address held }
{
    match insn.address.segment {
        None => offset_in(insn, values),
        Some(_) => None,
    }
}
