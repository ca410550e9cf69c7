//! From the tokens of a statement to an instruction, in Intel syntax (GNU as manual, "AT&T Syntax
//! versus Intel Syntax").
#![tactic(auto)]

mod filling;
mod heads;
mod laws;
mod reading;
mod rules;
mod sizes;

pub use laws::{faults_of_an_insn, one_insn, read_is_spelled, spelled_is_read, worked_insns};
pub use reading::{read_insn, read_into};
