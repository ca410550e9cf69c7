//! What a written frame table is refused for.

use asm_base::{SavedRegister, ScfiFault};

/// A fault of a row at an item, in the order in which they are told.
#[derive(Clone, Copy, Drop)]
pub enum CheckFault {
    /// The row's frame address is not known to be the one at entry.
    FrameNotShown,
    /// The register's value at entry does not stand where the row's rule says: the first such register.
    RegisterNotShown(SavedRegister),
    /// The row does not have the return address 8 below the frame address.
    ReturnAddressNotShown,
    /// What the item does cannot be followed.
    Unfollowed(ScfiFault),
}

/// A fault, and the item at which it is told.
#[derive(Clone, Copy, Drop)]
pub struct CheckedFault {
    pub item: usize,
    pub fault: CheckFault,
}
