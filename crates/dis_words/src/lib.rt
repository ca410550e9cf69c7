//! From the words of a command line of the disassembler to what they ask for.
#![tactic(auto)]

mod words;

pub use words::{Invocation, read_command};
