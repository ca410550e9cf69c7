//! What the line table of an object says of the instructions behind each `.loc`.
#![tactic(auto)]

mod laws;

pub use laws::locs_read_back;
