//! The amounts of an instruction's values: their names become symbols, what is known of these fits, and amounts have forms.
#![tactic(auto)]

mod fits;
mod forms;
mod interning;

pub use fits::amounts_fit;
pub use forms::{PlacedForm, amount_form};
pub use interning::{InsnNames, intern_amounts};
