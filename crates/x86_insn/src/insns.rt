//! Instructions, operand by operand.

use crate::amounts::Value;
use crate::registers::Reg;

/// The name that rows of the instruction table have, by its number there.
#[derive(Clone, Copy)]
pub struct Mnemonic(pub u16);

/// A prefix that is written as a word of its own.
#[derive(Clone, Copy)]
pub enum Prefix {
    Absent,
    /// `lock`
    Lock,
    /// `rep`
    Rep,
    /// `repe` or `repz`
    Repe,
    /// `repne` or `repnz`
    Repne,
    /// `notrack`
    Notrack,
}

/// A segment whose base counts in 64-bit mode.
#[derive(Clone, Copy)]
pub enum Segment {
    Fs,
    Gs,
}

/// The base of an address.
#[derive(Clone, Copy)]
pub enum Base {
    Absent,
    Rip,
    /// A 64-bit register, by its number.
    Of(u8),
}

/// The index of an address.
#[derive(Clone, Copy)]
pub enum Index {
    Absent,
    /// A 64-bit register, by its number, and the binary logarithm of the scale.
    By(u8, u8),
}

/// A memory operand without its displacement.
#[derive(Clone, Copy)]
pub struct Address {
    pub segment: Option<Segment>,
    pub base: Base,
    pub index: Index,
}

/// Where an operand is: a register stands here, and all else stands in the instruction once.
#[derive(Clone, Copy)]
pub enum Slot {
    Absent,
    Register(Reg),
    /// The instruction's immediate.
    Immediate,
    /// The instruction's address, with its displacement.
    Memory,
    /// The instruction's displacement, which is then a branch target.
    Target,
}

/// An instruction. Its operands stand in the order of the Intel manual, the destination first.
#[derive(Drop)]
pub struct Insn<'a> {
    pub name: Mnemonic,
    /// The size of its operands in bits, or 0 where the name alone says it.
    pub size: u8,
    pub prefix: Prefix,
    pub first: Slot,
    pub second: Slot,
    pub third: Slot,
    /// What memory shows, and anything where there is none.
    pub address: Address,
    /// What an immediate operand shows. Where there is none, readers put the number 0.
    pub immediate: Value<'a>,
    /// What memory or a branch target shows. Where there is none, readers put the number 0.
    pub displacement: Value<'a>,
}
