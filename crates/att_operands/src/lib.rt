//! From the tokens of a statement to an instruction, in AT&T syntax (GNU as manual, "AT&T Syntax
//! versus Intel Syntax").
#![tactic(auto)]

mod addresses;
mod faults;
mod joined_values;
mod laws;
mod marks;
mod operands;
mod prefixes;
mod register_slots;
mod registers;
mod suffixes;
mod usual;
mod values;

pub use addresses::{base_by, index_by, register_by, scale_by, takes_index};
pub use faults::{OperandCause, OperandFault};
pub use joined_values::hold_value;
pub use laws::{
    faults_of_a_value, faults_of_an_operand, one_operand, read_is_spelled, registers_have_slots,
    spelled_is_read, values_are_read, worked_operands,
};
pub use marks::mark_at;
pub use operands::{FoundOperand, ReadOperand, no_displacement, read_operand};
pub use prefixes::prefix_named;
pub use registers::{NamedRegister, register_named};
pub use suffixes::is_numeric_label;
pub use usual::{bare_memory, displaced_memory, whole_immediate, whole_register};
pub use values::{ReadValue, value_at};
