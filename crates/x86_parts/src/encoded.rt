//! What is encoded: bytes, their fields, and why there are none.

use x86_insn::FieldKind;
use x86_table::Bytes;

/// Which operand holds a value, the destination first.
#[derive(Clone, Copy, PartialEq, Eq, Debug)]
pub enum Position {
    First,
    Second,
    Third,
}

/// Where a value stands that is not known now.
#[derive(Clone, Copy, PartialEq, Eq, Debug)]
pub struct Field {
    /// How many bytes stand before it.
    pub at: u8,
    /// How many bytes it has.
    pub size: u8,
    pub kind: FieldKind,
    pub position: Position,
}

/// The bytes of an instruction, at most 15, in which each value that is not known now is 0.
#[derive(Drop)]
pub struct Encoded {
    pub bytes: Bytes,
    /// That of the displacement.
    pub displacement: Option<Field>,
    /// That of the immediate or the branch target.
    pub immediate: Option<Field>,
}

/// Why an instruction has no bytes.
#[derive(Clone, Copy, PartialEq, Eq, Debug)]
pub enum EncodeFault {
    /// A value has to be known, and is not.
    ValueNotKnown,
    /// No row takes these operands.
    NoSuchForm,
    /// No row takes these values.
    OutOfRange,
}
