//! What holds of object files: what a reader finds in their bytes (gABI, chapter 4), and what their
//! relocations are by the psABI's own table (psABI for AMD64, section 4.4, "Relocation").
#![tactic(auto)]

mod files;
mod relocation_meanings;
mod relocations;
mod symbols;

pub use files::{
    header_tables_read, headers_end, named_sections_read, null_headers_read, sections_read,
};
pub use relocation_meanings::{
    entries_tell_types, linked_values_are_forms, relocations_name_symbols, relocations_suit_fields,
    suffixes_are_answered,
};
pub use relocations::{relocation_tables_read, relocations_end, relocations_read};
pub use symbols::{
    groups_read, groups_stand, locals_read, null_symbols_read, objects_are_files, objects_fit,
    source_sections_found, source_sections_read, symbol_tables_found, symbol_tables_read,
    symbols_end, symbols_read,
};
