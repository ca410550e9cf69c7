//! Places of sections.

/// A place of a section: how many items and how many plain bytes of the section stand before it. Both tell how far it is,
/// whatever sizes the layout gives to the items.
#[derive(Clone, Copy, PartialEq, Eq, Debug)]
pub struct Place {
    /// How many items.
    pub item: u64,
    /// How many plain bytes.
    pub offset: u64,
}

/// A place, and the number of its section.
#[derive(Clone, Copy, PartialEq, Eq, Debug)]
pub struct SectionPlace {
    /// The number of the section.
    pub section: u32,
    /// The place of that section.
    pub place: Place,
}
