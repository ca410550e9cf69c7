//! What an item does to facts.

/// Bytes from a distance from the frame address on.
#[derive(Clone, Copy)]
pub struct Span {
    pub start: u64,
    pub size: u8,
}

/// The 8 bytes at a distance from the frame address, which hold a register's entry value.
#[derive(Clone, Copy)]
pub struct Slot {
    pub distance: u64,
    pub register: u8,
}

/// By which clauses an item changes facts.
#[derive(Clone, Copy)]
pub enum Clauses {
    /// By those of synthesis: all five.
    Synthesis,
    /// By those of kept facts: a load leaves its slot standing, and an rsp that rises drops no slot.
    Kept,
}

/// What an item does, with the addresses that are known.
#[derive(Clone, Copy)]
pub(crate) struct Change {
    /// The bytes that are stored.
    pub(crate) stored: Option<Span>,
    /// The distance of rsp at a call.
    pub(crate) cleared: Option<u64>,
    /// The slot that is made where the register has its entry value.
    pub(crate) saved: Option<Slot>,
    /// The 8 bytes from which a register is loaded.
    pub(crate) loaded: Option<Slot>,
    /// The slot that a load drops.
    pub(crate) freed: Option<Slot>,
    /// The distance of rsp where it rose and drops the slots below it.
    pub(crate) floor: Option<u64>,
}
