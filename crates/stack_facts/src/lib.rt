//! Where the entry values of the callee-saved registers are, at each item of a function.
#![tactic(auto)]

mod changes;
mod finding;
mod gathering;
mod passing;
mod ranking;
mod set_finding;
mod set_passing;
mod slots;
mod tables;
mod values;
mod word_passing;

pub use changes::{is_below, is_quiet, overlaps, stack_after, stored_at};
pub use tables::{FactTable, facts, facts_kept};
pub use values::{Clauses, Span};
