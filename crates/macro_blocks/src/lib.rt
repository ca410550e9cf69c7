//! Blocks of statements, and what is left of open files, calls and repeats: what begins and ends blocks, the search for their end, and
//! the text of a body.
#![tactic(auto)]

mod blocks;
mod bodies;
mod copies;
mod frames;
mod laws;
mod making;
mod passing;
mod places;
mod searching;

pub use blocks::{Block, Ending};
pub use bodies::push_statement;
pub use copies::EachCopy;
pub use frames::{Branch, Frame, Taken};
pub use laws::open_blocks_stay_open;
pub use places::Place;
