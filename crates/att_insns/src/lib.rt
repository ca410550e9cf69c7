//! From the tokens of a statement to an instruction, in AT&T syntax (GNU as manual, "AT&T Syntax
//! versus Intel Syntax").
#![tactic(auto)]

mod filling;
mod heads;
mod laws;
mod reading;
mod rules;
mod sizes;
mod slots;
mod sources;

pub use laws::{faults_of_an_insn, one_insn, read_is_spelled, spelled_is_read, worked_insns};
pub use reading::{blank, read_insn, read_into};
pub use rules::{apply, is_branch, long_memory};
pub use sizes::width;
pub use slots::{has_displacement, has_immediate, is_absent};
pub use sources::{by_bits, source_bits};
