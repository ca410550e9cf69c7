//! What a row of the instruction table says (Intel SDM, volume 2, section 3.1.1 and appendix A).

use x86_insn::{Class, Mnemonic};

/// A repeat prefix that belongs to the row.
#[derive(Clone, Copy)]
pub enum Repeat {
    Absent,
    F2,
    F3,
}

/// What the row itself has before the opcode.
#[derive(Clone, Copy)]
pub struct Lead {
    /// 66, the operand-size prefix.
    pub operand_size: bool,
    /// F2 or F3, as a part of the opcode.
    pub repeat: Repeat,
    /// REX.W.
    pub wide: bool,
}

/// The map of an opcode, by the bytes before it.
#[derive(Clone, Copy)]
pub enum Map {
    One,
    /// 0F
    Two,
    /// 0F 38
    Three38,
    /// 0F 3A
    Three3A,
}

/// What ModRM.rm may name.
#[derive(Clone, Copy)]
pub enum Rm {
    Any,
    Memory,
    Register,
}

/// Where the registers of a row stand.
#[derive(Clone, Copy)]
pub enum Shape {
    /// Nowhere: there is no ModRM byte.
    Plain,
    /// In the low bits of the opcode, with REX.B.
    Low,
    /// There too, but for the accumulator: its byte is another row.
    LowNotFirst,
    /// Nowhere: the ModRM byte is this one.
    Fixed(u8),
    /// In ModRM.rm, and ModRM.reg is this digit.
    Digit(u8, Rm),
    /// In ModRM.reg and ModRM.rm.
    Slash(Rm),
}

/// An operand of a row.
#[derive(Clone, Copy)]
pub enum Pattern {
    Absent,
    /// A register of the class, or memory of so many bytes (0 where its size does not count), by
    /// ModRM.rm.
    RegMem(Class, u8),
    /// A register by ModRM.reg.
    Reg(Class),
    /// A register in the low bits of the opcode.
    Low(Class),
    /// The register 0 of the class.
    Accumulator(Class),
    /// The register cl.
    Cl,
    /// The number 1.
    One,
    Immediate,
    /// The target of a direct branch.
    Target,
}

/// The immediate of a row, or its relative target, which stands in the same place.
#[derive(Clone, Copy)]
pub enum Immediate {
    Absent,
    /// 8 bits of an 8-bit operand.
    Byte,
    /// 8 bits that count something. They have to be known.
    Count,
    /// 8 bits, sign-extended to 16. They have to be known.
    Sext16,
    /// 8 bits, sign-extended to 32. They have to be known.
    Sext32,
    /// 8 bits, sign-extended to 64. They have to be known.
    Sext64,
    /// 16 bits.
    Word,
    /// 32 bits.
    Long,
    /// 32 bits, sign-extended to 64.
    LongSext,
    /// 64 bits.
    Quad,
    /// A distance of 8 bits, of a branch that has no longer form.
    Rel8,
    /// A distance of 8 bits, of a branch that has a longer form. It has to be known.
    Short,
    /// A distance of 32 bits.
    Rel32,
}

/// The prefix words that may stand before a row.
#[derive(Clone, Copy)]
pub enum Words {
    Absent,
    Lock,
    Rep,
    /// `repe` and `repne`
    Repe,
    Notrack,
}

/// The operands that are written.
#[derive(Clone, Copy)]
pub enum Destinations {
    Nothing,
    First,
    FirstAndSecond,
}

/// The registers that are written though no operand names them.
#[derive(Clone, Copy)]
pub enum Implied {
    Absent,
    Rax,
    Rcx,
    Rdx,
    Rsp,
    Rdi,
    RaxRdx,
    RaxRsi,
    RsiRdi,
    RspRbp,
    RaxRcxR11,
    RaxRbxRcxRdx,
    Xmm0,
}

/// What is stored.
#[derive(Clone, Copy)]
pub enum StoreKind {
    Absent,
    /// A written operand, if it is memory.
    Operand,
    /// The same, at an address that the second operand moves.
    BitString,
    /// Eight bytes below the top of the stack.
    PushQuad,
    /// Two bytes below the top of the stack.
    PushWord,
    /// Bytes at an address that no operand shows.
    Unfixed,
}

/// What an instruction of the row writes beside flags.
#[derive(Clone, Copy)]
pub struct Outputs {
    pub destinations: Destinations,
    pub implied: Implied,
    pub store: StoreKind,
}

/// One form of an instruction.
#[derive(Clone, Copy)]
pub struct Row {
    pub name: Mnemonic,
    /// The size of its operands in bits, or 0 where the name alone says it.
    pub size: u8,
    pub lead: Lead,
    pub map: Map,
    /// The last byte of the opcode.
    pub code: u8,
    pub shape: Shape,
    pub first: Pattern,
    pub second: Pattern,
    pub third: Pattern,
    pub immediate: Immediate,
    pub words: Words,
    pub outputs: Outputs,
}
