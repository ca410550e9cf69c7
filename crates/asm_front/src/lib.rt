//! From a source to its object.
#![tactic(auto)]

mod answering;
mod answers;
mod assembling;
mod knowing;
mod laws;
mod placers;

pub use answers::{AsmFault, Assembled, Main, Options};
pub use assembling::assemble;
pub use laws::{objects_are_made, told_files_are_known, written_is_readable, written_reads_back};
