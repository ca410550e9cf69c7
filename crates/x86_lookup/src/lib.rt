//! What is looked up in the instruction table: the rows of a name, the name of a mnemonic, and what an instruction writes.
#![tactic(auto)]

mod att_mnemonics;
mod bare_codes;
mod bare_instructions;
mod form_sizes;
mod intel_mnemonics;
mod laws;
mod mnemonics;
mod names;
mod ranges;
mod row_keys;
mod slots;
mod spans;
mod writing;

pub use bare_instructions::bare_code;
pub use form_sizes::{FormSize, form_size, has_bit, keys, register_sort};
pub use laws::{bare_codes_read, mnemonics_are_complete, mnemonics_have_rows};
pub use mnemonics::{FoundName, att_name};
pub use names::{Named, Rule, att_names, intel_name, intel_names, shown_as};
pub use ranges::{RowRange, rows, rows_of, rows_of_size};
pub use row_keys::Key;
pub use writing::{Store, Writes, written};
