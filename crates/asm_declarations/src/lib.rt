//! Directives that declare: sections, what is said of symbols, common space, and names of files.
#![tactic(auto)]

mod commons;
mod idents;
mod section_changes;
mod symbol_words;

pub use commons::{place_comm, place_lcomm};
pub use idents::{one_string, place_file, place_ident};
pub use section_changes::{Header, place_popped, place_pushed, place_section, set_current};
pub use symbol_words::{place_said, place_type};
