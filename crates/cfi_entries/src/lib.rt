//! Rows of frame tables by the bytes of entries, and the instructions that lead from one row to the next.
#![tactic(auto)]

mod changing;
mod entries;
mod laws;
mod running;
mod writing;

pub use changing::{change, common_row};
pub use entries::row_at;
pub use laws::{
    common_entries_read, differences_lead, encodings_read_back, entries_read_back,
    instructions_read_back, instructions_stand_in_row, numbers_are_least, rows_read_back,
    rows_stand_at_places, worked_rows,
};
pub use writing::op_bytes;
