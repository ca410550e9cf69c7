//! Instructions: their names, registers, operands and values, and which values are known.
#![tactic(auto)]

mod amounts;
mod insns;
mod knowing;
mod operands;
mod registers;
mod visitors;

pub use amounts::{Amount, FieldKind, Suffix, Value, Values};
pub use insns::{Address, Base, Index, Insn, Mnemonic, Prefix, Segment, Slot};
pub use knowing::values;
pub use operands::{Memory, Operand, OperandFold, fold_operand};
pub use registers::{Class, Reg};
pub use visitors::{Field, FieldOf, Kind, KindOf, NamesOf, UsesRegister};
