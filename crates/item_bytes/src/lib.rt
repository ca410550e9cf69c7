//! The bytes of items of several levels, and of padding.
#![tactic(auto)]

mod advances;
mod jumps;
mod levels;
mod low_bytes;
mod no_operations;
mod numbers;

pub use advances::{advance, advance_reads_back};
pub use jumps::{Condition, condition_of, conditions_have_numbers, jump, jump_reads_back};
pub use levels::{
    advance_level, advances_hold_their_distance, groups_hold_their_number, jump_level,
    leb128_level, short_jumps_hold_a_signed_byte,
};
pub use no_operations::{
    NoOperationParts, no_operation, no_operation_parts, no_operations_have_their_size,
};
pub use numbers::{least_leb128, leb128, leb128_reads_back};
