//! The rows of an entry of a frame table at its places, as text.

mod entries;
mod lines;
mod shown;

pub use lines::write_entry;
pub use shown::write_row;
