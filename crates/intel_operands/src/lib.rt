//! From the tokens of a statement to the operands of an instruction, in Intel syntax (GNU as
//! manual, "AT&T Syntax versus Intel Syntax").
#![tactic(auto)]

mod laws;
mod operands;
mod outlines;
mod symbols;
mod usual;
mod values;
mod words;

pub use laws::{
    faults_of_an_operand, one_operand, read_is_spelled, spelled_is_read, worked_operands,
};
pub use operands::{FoundOperand, SizedOperand, read_operand};
pub use usual::{ends_at, whole_memory, whole_register, whole_value};
