//! The outside in memory: inputs, outputs and consoles for tests, whose calls fail as they are told to, or never.
#![tactic(auto)]

mod faulty;
mod memory;
mod null;

pub use faulty::{Calls, FaultyConsole, FaultyInputs, FaultyOutput, Unlisted};
pub use memory::{MemoryConsole, MemoryFile, MemoryInputs, MemoryOutput, Stage};
pub use null::{NullConsole, NullOutput, RepeatInputs};
