//! From the words of a command line to the answer of a run.
#![tactic(auto)]

mod running;

pub use running::run;
