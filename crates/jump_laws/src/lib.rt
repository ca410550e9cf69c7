//! What the bytes of direct jumps, and of padding, read as.
#![tactic(auto)]

mod laws;

pub use laws::{conditions_are_numbered, jump_codes_read, nops_write_nothing, padding_reads};
