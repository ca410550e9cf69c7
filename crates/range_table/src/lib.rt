//! A table of numbers to whose ranges a number is added in little time.
#![tactic(auto)]

mod adding;
mod tables;

pub use tables::RangeTable;
