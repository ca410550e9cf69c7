//! What directives say of their registers and their offsets.

ghost use Rattle.std.specs.Prelude.{◌≡◌};
ghost use Rattle.asm_frames.specs.Lines as spec;

use cfi_directives::{DwarfRegister, RowDirective};

/// A directive of a register and an offset.
#[derive(Clone, Copy)]
pub enum SlotWord {
    DefCfa,
    Offset,
    RelOffset,
    ValOffset,
}

/// A directive of an offset.
#[derive(Clone, Copy)]
pub enum OffsetWord {
    DefCfaOffset,
    AdjustCfaOffset,
}

/// A directive of one or more registers.
#[derive(Clone, Copy)]
pub enum RuleWord {
    Restore,
    Undefined,
    SameValue,
}

/// The offset that 64 bits are.
pub(crate) fn signed(value: u64) -> i64
    ensures { result ≡ spec.signed value }
{
    value.cast_signed()
}

/// What a directive says of a register and an offset.
pub(crate) fn slot_row(word: SlotWord, register: DwarfRegister, offset: i64) -> RowDirective
    ensures { result ≡ spec.slot_row word register offset }
{
    match word {
        SlotWord::DefCfa => RowDirective::DefCfa(register, offset),
        SlotWord::Offset => RowDirective::Offset(register, offset),
        SlotWord::RelOffset => RowDirective::RelOffset(register, offset),
        SlotWord::ValOffset => RowDirective::ValOffset(register, offset),
    }
}

/// What a directive says of an offset.
pub(crate) fn offset_row(word: OffsetWord, offset: i64) -> RowDirective
    ensures { result ≡ spec.offset_row word offset }
{
    match word {
        OffsetWord::DefCfaOffset => RowDirective::DefCfaOffset(offset),
        OffsetWord::AdjustCfaOffset => RowDirective::AdjustCfaOffset(offset),
    }
}

/// What a directive says of a register.
pub(crate) fn rule_row(word: RuleWord, register: DwarfRegister) -> RowDirective
    ensures { result ≡ spec.rule_row word register }
{
    match word {
        RuleWord::Restore => RowDirective::Restore(register),
        RuleWord::Undefined => RowDirective::Undefined(register),
        RuleWord::SameValue => RowDirective::SameValue(register),
    }
}
