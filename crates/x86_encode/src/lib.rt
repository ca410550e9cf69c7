//! The shortest bytes that mean an instruction.
#![tactic(auto)]

mod encoding;
mod fitting;
mod laws;
mod lengths;
mod making;
mod searching;
mod showing;

pub use encoding::encode;
pub use laws::{codes_are_readings, encodings_are_codes, fields_stand_apart, worked_codes};
pub use x86_parts::{EncodeFault, Encoded, Field, Position};
