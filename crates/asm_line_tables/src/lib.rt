//! Statements of line tables: `.loc`, and `.file` with a number.
#![tactic(auto)]

mod constants;
mod laws;
mod locs;
mod numbered_files;
mod parts;
mod reading;
mod taking;
mod values;
mod words;

pub use laws::{line_directives_keep_all_else, worked_statements};
pub use locs::place_loc;
pub use numbered_files::place_numbered_file;
