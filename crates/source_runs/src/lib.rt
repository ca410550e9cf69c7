//! From a source that is asked for to the status of a run.
#![tactic(auto)]

mod laws;
mod running;
mod saying;
mod summary;

pub use laws::{nothing_starts_no_file, refused_memory_leaves_all};
pub use running::{deliver, run_source};
pub use saying::say_all;
