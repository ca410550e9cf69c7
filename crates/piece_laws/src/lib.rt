//! What the bytes of tables in the object file hold: of the pieces of which they are made, and of the places that these name.
#![tactic(auto)]

mod distances;
mod laws;

pub use distances::distances_are_held;
pub use laws::{places_rise, tables_are_in_file};
