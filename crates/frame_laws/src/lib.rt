//! What the bytes of a frame table in the object file say.
#![tactic(auto)]

mod counts;
mod laws;
mod pointers;

pub use counts::labels_are_few;
pub use laws::frame_tables_read;
pub use pointers::symbols_are_named;
