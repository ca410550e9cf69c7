//! What the forms of assigned symbols and of instructions name, and how large their numbers are.
#![tactic(auto)]

mod forms;
mod framed;
mod numbers;

pub use forms::{forms_name_symbols, held_forms_name_symbols, values_name_symbols};
pub use framed::tables_add_labels;
pub use numbers::{numbers_fit, tokens_are_in_bytes, values_fit};
