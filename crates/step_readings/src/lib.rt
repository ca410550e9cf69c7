//! What the bytes of instructions read as does no more than the instructions.
#![tactic(auto)]

mod laws;

pub use laws::{
    any_bytes_are_held, encodings_obey, jumps_obey, loaded_bytes_obey, padding_does_nothing,
    read_bytes_obey,
};
