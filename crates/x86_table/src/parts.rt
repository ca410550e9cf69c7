//! What the bytes of an instruction hold (Intel SDM, volume 2, section 2.1).

use x86_insn::{Index, Prefix, Segment};

/// How many bytes of displacement stand behind a base.
#[derive(Clone, Copy)]
pub enum Width {
    Absent,
    Byte,
    Long,
}

/// What ModRM and SIB name.
#[derive(Clone, Copy)]
pub enum Place {
    Absent,
    /// A register.
    Direct(u8),
    /// An address counted from the end of the instruction.
    Rip,
    /// An address without base.
    Bare(Index),
    /// An address with a base: its register, the index, whether a SIB byte stands, and the width of
    /// the displacement.
    Based(u8, Index, bool, Width),
}

/// The fields of an instruction. Each bit of REX is joined to the register that it is of.
#[derive(Clone, Copy)]
pub struct Parts {
    pub prefix: Prefix,
    pub segment: Option<Segment>,
    /// Whether REX stands without any of its bits.
    pub bare_rex: bool,
    /// ModRM.reg.
    pub reg: u8,
    /// The register in the opcode.
    pub low: u8,
    /// ModRM.mod and ModRM.rm, with SIB.
    pub place: Place,
    /// The displacement modulo 2^64, where it is known.
    pub displacement: Option<u64>,
    /// The immediate modulo the operand size, or the distance modulo 2^64, where it is known.
    pub immediate: Option<u64>,
}
