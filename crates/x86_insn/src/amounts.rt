//! The values that an instruction holds, what is said behind them, and how they stand in fields.

use asm_expr::Expr;

/// How much a value is. The usual ones need no tree.
#[derive(Drop)]
pub enum Amount<'a> {
    Number(u64),
    /// A symbol, by the bytes of its name, and a number more.
    Name(&'a [u8], u64),
    Tree(Box<Expr>),
}

/// What is said behind the symbol of a value: what the linker puts there in place of the symbol's
/// address (psABI for AMD64, section 4.4, "Relocation").
#[derive(Clone, Copy, PartialEq, Eq, Debug)]
pub enum Suffix {
    /// `@PLT`: the address of the function's entry in the procedure linkage table.
    Plt,
    /// `@GOTPCREL`: that of the symbol's entry in the global offset table.
    GotPcRel,
    /// `@GOTTPOFF`: that of the entry which has the symbol's offset from the thread pointer.
    GotTpOff,
    /// `@TPOFF`: the symbol's offset from the thread pointer.
    TpOff,
}

/// A value as it is written: that of an immediate, of a displacement or of a branch target.
#[derive(Drop)]
pub struct Value<'a> {
    pub amount: Amount<'a>,
    pub suffix: Option<Suffix>,
}

/// The values of an instruction, none where symbols are left. That of the displacement is a branch
/// target's too.
#[derive(Clone, Copy)]
pub struct Values {
    pub immediate: Option<u64>,
    pub displacement: Option<u64>,
}

/// How a value stands in its field.
#[derive(Clone, Copy, PartialEq, Eq, Debug)]
pub enum FieldKind {
    /// As it is: data, or an immediate.
    Plain,
    /// Sign-extended to 64 bits: an immediate or a displacement.
    Signed,
    /// Counted from the end of the instruction: a displacement from rip.
    Address,
    /// Counted from the end of the instruction, of a branch.
    Branch,
    /// Of an item that takes as many bytes as the number needs. No instruction has one.
    Number,
}
