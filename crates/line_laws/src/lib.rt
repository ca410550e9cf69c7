//! What the bytes of a line table in the object file say.
#![tactic(auto)]

mod gaps;
mod laws;

pub use gaps::gaps_are_written;
pub use laws::line_tables_read;
