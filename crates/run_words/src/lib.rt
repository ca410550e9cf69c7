//! From the words of a command line to what they ask for.
#![tactic(auto)]

mod functions;
mod words;

pub use words::{Invocation, read_command};
