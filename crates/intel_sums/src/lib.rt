//! Memory in brackets as a sum, in Intel syntax: its registers, and the text that is left without
//! them (GNU as manual, "Memory References").
#![tactic(auto)]

mod laws;
mod lone_sums;
mod other_registers;
mod parts;
mod sums;

pub use laws::{calm_tokens_stay, sums_are_read};
pub use lone_sums::{LoneSum, is_calm_at, lone_sum};
pub use other_registers::is_other_register;
pub use parts::{Part, Parts, address_of};
pub use sums::{ReadSum, is_loose, is_register, is_whole, mark_of, read_sum, token_at};
