//! The phases of items: before and after they have addresses and sizes.

/// Whether items have addresses and sizes.
pub trait Phase: Drop {
    /// The address of an item, which is its offset in its section, and its size, in bytes.
    type Address: Drop;
}

/// No item has an address or a size.
#[derive(Clone, Copy, PartialEq, Eq, Debug)]
pub struct Loose;

impl Phase for Loose {
    type Address = ();
}

/// Each item has its address and its size.
#[derive(Clone, Copy, PartialEq, Eq, Debug)]
pub struct Laid;

impl Phase for Laid {
    type Address = u64;
}
