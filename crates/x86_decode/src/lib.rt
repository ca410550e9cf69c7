//! From bytes to the instruction that they begin with.
#![tactic(auto)]

mod admitting;
mod decoding;
mod field_readings;
mod fitting;
mod fronts;
mod heads;
mod immediates;
mod instructions;
mod laws;
mod places;
mod rows;
mod slots;

pub use decoding::decode;
pub use fronts::{Front, front_of};
pub use laws::{all_is_decoded, worked_decodings};
