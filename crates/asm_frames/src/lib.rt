//! Statements of frame tables: the `.cfi_` directives.
#![tactic(auto)]

mod frames;
mod laws;
mod offsets;
mod operands;
mod pointers;
mod registers;
mod taking;
mod words;

pub use frames::place_frame;
pub use laws::frame_directives_keep_all_else;
