//! The parts of an instruction's code by one row of the table, and its fields.
#![tactic(auto)]

mod building;
mod encoded;
mod filling;
mod found;
mod immediates;
mod keying;

pub use building::{Laid, built, is_byte, is_middle, laid_out, rex_bits};
pub use encoded::{EncodeFault, Encoded, Field, Position};
pub use filling::{displacement_field, immediate_field};
pub use found::{Found, is_reached};
pub use immediates::{immediate_length, is_signed_8, is_signed_32, last_of};
pub use keying::{Sorts, admits, sorts_of};
