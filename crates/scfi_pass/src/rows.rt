//! The row of an item.

/// The frame address, counted from a register of the seven.
#[derive(Clone, Copy)]
pub struct Cfa {
    pub register: u8,
    /// The register less the frame address, modulo 2^64.
    pub distance: u64,
}

/// The row of an item: the frame address, and the slot of each of the six registers, or none where
/// the register has its entry value still.
#[derive(Clone, Copy)]
pub struct StackRow {
    pub cfa: Cfa,
    pub rbx: Option<u64>,
    pub rbp: Option<u64>,
    pub r12: Option<u64>,
    pub r13: Option<u64>,
    pub r14: Option<u64>,
    pub r15: Option<u64>,
}
