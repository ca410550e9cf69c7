//! Sets of numbers, as bits.
#![tactic(auto)]

mod bits;
mod numbers;
mod sets;
mod trees;
mod words;

pub use numbers::Numbers;
pub use sets::NumberSet;
pub use words::Word;
