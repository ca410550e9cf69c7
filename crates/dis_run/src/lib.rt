//! From the words of a command line of the disassembler to the answer of a run.
#![tactic(auto)]

mod listing;
mod running;
mod saying;

pub use running::run_with;
