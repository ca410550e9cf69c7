//! Rows: the items of all sections, one behind the other, with an end mark behind those of each section.

use crate::distances::Distance;

/// What the size of a row depends on.
#[derive(Drop)]
pub enum RowSize {
    /// So many bytes wherever the row stands: plain bytes and fills, and what holds no distance that is known, as a
    /// near jump out of its section. Its level is 0, and its size alone says what stands there.
    Fixed(u64),
    /// Up to the next multiple of 2^log, and nothing where that takes more than `most` bytes.
    Align {
        log: u8,
        most: u64,
    },
    /// Up to the shift of row `from` of its section plus `ahead` less `behind`, and nothing where that is before the
    /// row (GNU as manual, ".org").
    Org {
        from: u32,
        ahead: u64,
        behind: u64,
    },
    /// A jump of 2 bytes, or of 5, 6 with a condition. The distance counts from the end of the short form.
    Jump {
        conditional: bool,
        distance: Distance,
    },
    /// A number in 1 to 10 groups of 7 bits (DWARF 5, section 7.6).
    Leb128 {
        signed: bool,
        distance: Distance,
    },
    /// An advance of a frame table, in 0, 1, 2, 3 or 5 bytes (DWARF 5, section 6.4.2.1).
    Advance {
        distance: Distance,
    },
    /// The end of a section. Behind it shifts begin at 0 again.
    End,
}

/// An item. It stands at its offset, moved by the rows of its section before it.
#[derive(Drop)]
pub struct Row {
    /// How many plain bytes of its section stand before it.
    pub offset: u64,
    pub size: RowSize,
}
