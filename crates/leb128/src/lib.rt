//! LEB128 numbers: from bytes to the number that they begin with, and back (DWARF 5, section 7.6).
#![tactic(auto)]

mod digits;
mod laws;
mod reading;

pub use digits::{push_signed, push_unsigned};
pub use laws::{numbers_are_least, numbers_read_back};
pub use reading::{read_signed, read_unsigned};
