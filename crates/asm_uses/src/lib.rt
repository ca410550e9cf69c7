//! How statements use symbols: the names of operands become symbols, and sums and expressions become forms over them.
#![tactic(auto)]

mod attributes;
mod interning;
mod labels;
mod long_sums;
mod places;
mod plain_sums;
mod sums;
mod tables;
mod tree_forms;
mod values;

pub use long_sums::{LongPlain, LongSymbolSum, Moved, long_form_in, long_plain, long_plain_form};
pub use places::{View, here_name, one_uses_place, spot_at, uses_place};
pub use plain_sums::{Plain, plain_form, plain_of};
pub use sums::{Added, Operand, SymbolSum, sum_form_in};
pub use tables::{Naming, SymbolUses};
pub use tree_forms::{form_if, form_in, forms, up_to_three_forms};
pub use values::Value;
