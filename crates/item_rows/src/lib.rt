//! The rows of items, by which they are laid out.
#![tactic(auto)]

mod links;
mod rows;

pub use links::{is_linked, is_linked_pair, is_suffixed, settled_forms_tell_weak};
pub use rows::plan_of;
