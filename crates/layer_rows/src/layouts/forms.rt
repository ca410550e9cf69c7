//! The bytes of items that hold a distance, at each level.

use item_bytes::{Condition, advance, jump, leb128};
use std::alloc::AllocError;

/// Appends a jump (the condition is that of `je`). The distance counts from the end of the short form, of two bytes.
pub fn push_jump(
    conditional: bool,
    level: u8,
    distance: u64,
    bytes: &mut Vec<u8>,
) -> Result<(), AllocError> {
    let (condition, near_size) = if conditional {
        (Some(Condition::Equal), 6)
    } else {
        (None, 5)
    };
    let near = level != 0;
    let size = if near { near_size } else { 2 };
    let from_end = distance.wrapping_sub(size - 2);
    bytes.extend_from_slice(jump(condition, near, from_end).as_slice())
}

/// Appends a number in one group of seven bits more than the level.
pub fn push_leb128(
    signed: bool,
    level: u8,
    number: u64,
    bytes: &mut Vec<u8>,
) -> Result<(), AllocError> {
    let groups = usize::from(level.min(9)) + 1;
    bytes.extend_from_slice(leb128(signed, number, groups).as_slice())
}

/// Appends an advance, which has no byte at level 0.
pub fn push_advance(level: u8, distance: u64, bytes: &mut Vec<u8>) -> Result<(), AllocError> {
    bytes.extend_from_slice(advance(level.min(4), distance).as_slice())
}
