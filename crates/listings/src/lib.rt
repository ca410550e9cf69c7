//! The listing of a byte string: a line for each instruction, and for each byte at which none reads.
#![tactic(auto)]

mod digits;
mod heads;
mod laws;
mod lines;
mod texts;

pub use laws::{lists_all_bytes, one_listing};
pub use lines::put_lines;
pub use texts::Texts;
