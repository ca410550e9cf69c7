//! What the analysis of the stack makes of functions, as text.
#![tactic(auto)]

mod effects;
mod lines;
mod making;
mod shown;
mod targets;

pub use lines::write_function;
