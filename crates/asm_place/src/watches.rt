//! The effects of instructions, where these are asked for while they are placed.

ghost use Rattle.std.specs.Prelude.{Some};
ghost use Rattle.asm_place.specs.Coding.{shape_of, values_in};
ghost use Rattle.asm_place.specs.Effects.{ShowsInsn, no_values};

use crate::codes::{InsnForms, known};
use insn_effects::{Effect, Role, effect_of};
use x86_insn::{Insn, Values};

/// Whether the effect of an instruction is asked for, and the effect once it is known.
#[derive(Clone, Copy)]
pub(crate) struct Watch {
    pub(crate) asked: bool,
    pub(crate) effect: Effect,
}

/// The effect of an instruction of these forms.
#[inline(never)]
fn formed_effect(insn: &Insn, forms: &InsnForms) -> Effect
    ensures { ShowsInsn (Some ((shape_of insn.now).view (values_in forms.now))) result }
{
    let values = Values {
        immediate: known(&forms.immediate),
        displacement: known(&forms.displacement),
    };
    effect_of(insn, &values)
}

/// The effect of a mnemonic that stands alone, which has no values.
#[inline(never)]
fn lone_effect(insn: &Insn) -> Effect
    ensures { ShowsInsn (Some ((shape_of insn.now).view no_values)) result }
{
    let none = Values {
        immediate: None,
        displacement: None,
    };
    effect_of(insn, &none)
}

impl Watch {
    ghost use Rattle.std.specs.Prelude.{◌≡◌, Some, None, false, true};
    ghost use Rattle.asm_place.specs.Coding.{shape_of, values_in};
    ghost use Rattle.asm_place.specs.Effects.{ShowsInsn, ShowsAsked, no_values};

    /// Nothing is asked.
    #[inline(always)]
    pub(crate) fn none() -> Watch
        ensures { result.asked ≡ false }
    {
        Watch {
            asked: false,
            effect: Effect::plain(Role::Other),
        }
    }

    /// The effect is asked for.
    pub(crate) fn asking() -> Watch
        ensures { result.asked ≡ true }
    {
        Watch {
            asked: true,
            effect: Effect::plain(Role::Other),
        }
    }

    /// An instruction of these forms is placed.
    #[inline(always)]
    pub(crate) fn see(&mut self, insn: &Insn, forms: &InsnForms)
        ensures { ShowsAsked self.old.asked
            (Some ((shape_of insn.now).view (values_in forms.now))) self.new.effect }
    {
        if self.asked {
            self.effect = formed_effect(insn, forms);
        }
    }

    /// A mnemonic that stands alone is placed.
    #[inline(always)]
    pub(crate) fn see_alone(&mut self, insn: &Insn)
        ensures { ShowsInsn (Some ((shape_of insn.now).view no_values)) self.new.effect }
    {
        self.effect = lone_effect(insn);
    }

    /// What is placed was not read as an instruction.
    pub(crate) fn see_none(&mut self)
        ensures { ShowsInsn None self.new.effect }
    {
        self.effect = Effect::plain(Role::Data);
    }
}
