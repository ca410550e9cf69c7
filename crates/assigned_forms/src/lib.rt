//! The expansion of assigned symbols in forms: each is replaced by the expansion of the form that it was assigned last.
#![tactic(auto)]

mod expanding;
mod expansions;
mod laws;
mod linked;
mod opened;

pub use expansions::Expansions;
pub use laws::{expansions_are_exact, weak_aliases_stay};
pub use linked::linked_expansions;
