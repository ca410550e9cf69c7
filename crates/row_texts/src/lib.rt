//! The rows of a test as text: how they are read, and how names and bytes are shown.
#![tactic(auto)]

mod escapes;
mod hexadecimal;
mod names;
mod pieces;
mod rows;

pub use hexadecimal::write_bytes;
pub use names::{
    Named, relocation_type, section_flags, section_type, shown_name, symbol_binding, symbol_type,
    symbol_visibility,
};
pub use pieces::{
    write_code, write_count, write_displayed, write_line, write_number, write_spaced_code,
    write_text,
};
pub use rows::{FailingCalls, Pieces, Row, RowFault, Shown, SourceFile, read_row};
