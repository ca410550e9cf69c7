//! The texts of instructions in Intel syntax.
#![tactic(auto)]

mod laws;

pub use laws::{operands_spell, worked_texts};
