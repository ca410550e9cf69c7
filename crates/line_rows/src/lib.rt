//! Line tables: what their rows are by bytes, and the bytes of a row.
#![tactic(auto)]

mod header;
mod laws;
mod machine;
mod ops;
mod rows;
mod running;
mod sections;
mod writing;

pub use header::line_at;
pub use laws::{
    operations_read_back, places_are_distances, sections_are_sequences, sequences_read_back,
    tables_read_back, worked_rows,
};
pub use machine::{Machine, start, step};
pub use ops::next_op;
pub use rows::{Line, LineOp, LineRow, Registers, RowBytes};
pub use running::row_in_program;
pub use sections::{Distance, Gap, SectionRows};
pub use writing::{known_row_bytes, row_bytes};
