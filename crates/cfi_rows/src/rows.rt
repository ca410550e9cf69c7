//! A row of a frame table, and the instructions that change it (DWARF 5, section 6.4).

ghost use Rattle.std.specs.Prelude.{◌≡◌};
ghost use Rattle.cfi_rows.specs.Rows as spec;

use arrayvec::ArrayVec;

/// How a register's value in the caller is found (DWARF 5, section 6.4.1). Offsets are in bytes from the CFA.
#[derive(Clone, Copy, Debug, PartialEq, Eq)]
pub enum Rule {
    /// No rule holds: by the psABI a callee-saved register has its value still.
    Unspecified,
    /// The value is lost.
    Undefined,
    /// The register has its value still.
    SameValue,
    /// The value stands in memory at the CFA plus this offset.
    Offset(i64),
    /// The value is the CFA plus this offset.
    ValueOffset(i64),
    /// The value stands in the register of this number.
    Register(u8),
}

/// A row: the canonical frame address (CFA), and where each register's value in the caller is found.
#[derive(Clone, Copy, Debug)]
pub struct CfaRow {
    /// The DWARF number of the register that the CFA is counted from.
    pub register: u8,
    /// The CFA less that register's value, in bytes.
    pub offset: i64,
    /// The rule of each register, by its DWARF number. 16 is the return address.
    pub rules: [Rule; 64],
}

/// The row before any instruction.
pub fn blank_row() -> CfaRow
    ensures { result ≡ spec.blank }
{
    CfaRow {
        register: 0,
        offset: 0,
        rules: [Rule::Unspecified; 64],
    }
}

impl Default for CfaRow {
    fn default() -> Self
        ensures { result ≡ spec.blank }
    {
        blank_row()
    }
}

/// An instruction that changes the row. Registers are DWARF numbers, and offsets are in bytes: none is factored.
#[derive(Clone, Copy, Debug, PartialEq, Eq)]
pub enum CfiOp {
    /// The CFA is the register's value plus the offset.
    DefCfa(u8, i64),
    /// The CFA is counted from the register, at the offset that it has.
    DefCfaRegister(u8),
    /// The CFA has the offset from the register that it is counted from.
    DefCfaOffset(i64),
    /// The register has the rule.
    Set(u8, Rule),
    /// The register has the rule again that the common entry gave it.
    Restore(u8),
    /// The row is remembered.
    Remember,
    /// The row is the one that was remembered last, its CFA too, and that one is forgotten.
    RestoreState,
}

/// Instructions that lead from one row to another: one for the CFA, and one for each register.
pub type CfiOps = ArrayVec<CfiOp, 65>;

/// The bytes of an instruction: a code, a register, and a number in at most 10 bytes.
pub type CfiBytes = ArrayVec<u8, 12>;

/// `ArrayVec` asks for an element where there is none.
impl Default for CfiOp {
    ghost use Rattle.std.specs.Prelude.{◌≡◌};
    ghost use Rattle.cfi_rows.specs.declared.rows.CfiOp.TheVariants as op;

    fn default() -> Self
        ensures { result ≡ op.Remember }
    {
        CfiOp::Remember
    }
}

/// An instruction of an entry.
#[derive(Clone, Copy)]
pub enum Insn {
    /// Padding.
    Nop,
    /// What follows holds from so many bytes further on.
    Advance(u32),
    /// The row is changed.
    Op(CfiOp),
}
