//! What pads, and what grows with the value that it holds.

use item_bytes::Condition;

/// What padding is filled with.
#[derive(Clone, Copy, Debug)]
pub enum Padding {
    /// This byte, again and again.
    Byte(u8),
    /// No-operations of up to 9 bytes (Intel SDM, volume 2, "NOP").
    NoOperations,
}

/// What grows with the value that it holds.
#[derive(Clone, Copy)]
pub enum Growth {
    /// A jump, of 2 bytes, or of 5, 6 with a condition. It holds the distance from its end.
    Jump(Option<Condition>),
    /// A number in 1 to 10 groups of 7 bits (DWARF 5, section 7.6).
    Leb128 { signed: bool },
    /// An advance of a frame table, of 0, 1, 2, 3 or 5 bytes (DWARF 5, section 6.4.2.1).
    Advance,
}
