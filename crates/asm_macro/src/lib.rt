//! Macros, repeats, conditionals and files: the list of statements as it is rewritten (GNU as manual, ".macro", ".rept",
//! ".irp", ".irpc", ".if", ".include").
#![tactic(auto)]

mod conditionals;
mod definitions;
mod depths;
mod expander;
mod expanding;
mod faults;
mod fronts;
mod heads;
mod includes;
mod laws;
mod macros;
mod open_parts;
mod refusing;
mod repeats;
mod rewriting;
mod running;
mod sources;
mod turned;
mod turning;

pub use expander::Expander;
pub use expanding::expand_source;
pub use faults::ExpandFault;
pub use laws::{
    expansions_end, handed_statements_are_placed, lists_stay_shallow, one_outcome,
    plain_statements_are_placed,
};
pub use sources::counted_expand_source;
