//! The source that the assembler makes by itself, to be timed on it.
#![tactic(auto)]

mod functions;
mod laws;

pub use functions::self_load;
pub use laws::loads_are_bytes;
