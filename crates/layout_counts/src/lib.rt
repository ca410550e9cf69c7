//! What is counted of a layout: the bytes of its first section, its near jumps, and its rounds.
#![tactic(auto)]

mod counting;
mod laws;

pub use counting::{LayoutCounts, count_layout};
pub use laws::rounds_are_counted;
