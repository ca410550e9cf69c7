//! What one `.cfi_` directive says (GNU as manual, "CFI directives"). Offsets are in bytes: none is factored.

use crate::frames::Pointer;
use crate::registers::DwarfRegister;
use asm_base::Pos;

/// What a pointer of a procedure leads to.
#[derive(Clone, Copy, PartialEq, Eq, Debug)]
pub enum PointerKind {
    /// `.cfi_personality`: the routine that unwinds through it.
    Personality,
    /// `.cfi_lsda`: the data for that routine.
    Lsda,
}

/// A directive. One that names several registers is a line for each of them, at the same place.
#[derive(Drop)]
pub enum CfiLine {
    /// `.cfi_startproc`: a procedure begins here. Faults of what is made for it are told at this line.
    StartProc(Pos),
    /// `.cfi_endproc`: the procedure ends here.
    EndProc,
    /// A directive of the procedure that is open.
    Row(RowDirective),
    /// `.cfi_personality` and `.cfi_lsda`: the procedure that is open has this pointer, or none.
    Point(PointerKind, Option<Pointer>),
}

/// A directive that says how the row changes from its place on.
#[derive(Clone, Copy, PartialEq, Eq, Debug)]
pub enum RowDirective {
    /// `.cfi_def_cfa`: the CFA is the register's value plus the offset.
    DefCfa(DwarfRegister, i64),
    /// `.cfi_def_cfa_register`: the CFA is counted from the register, at the offset that it has.
    DefCfaRegister(DwarfRegister),
    /// `.cfi_def_cfa_offset`: the CFA has this offset from the register that it is counted from.
    DefCfaOffset(i64),
    /// `.cfi_adjust_cfa_offset`: the CFA's offset is more by this.
    AdjustCfaOffset(i64),
    /// `.cfi_offset`: the register's value in the caller stands at the CFA plus this offset.
    Offset(DwarfRegister, i64),
    /// `.cfi_rel_offset`: it stands at this offset from the register that the CFA is counted from.
    RelOffset(DwarfRegister, i64),
    /// `.cfi_val_offset`: it is the CFA plus this offset.
    ValOffset(DwarfRegister, i64),
    /// `.cfi_register`: that of the first register stands in the second one.
    Register(DwarfRegister, DwarfRegister),
    /// `.cfi_remember_state`: the row is remembered.
    RememberState,
    /// `.cfi_restore_state`: the row is the one that was remembered last, its CFA too.
    RestoreState,
    /// `.cfi_restore`: the register has the rule that it has where a procedure begins.
    Restore(DwarfRegister),
    /// `.cfi_undefined`: the register's value in the caller is lost.
    Undefined(DwarfRegister),
    /// `.cfi_same_value`: the register has its value in the caller still.
    SameValue(DwarfRegister),
}
