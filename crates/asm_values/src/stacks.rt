//! The stack of sections.

/// The section that items went into, and the one before it.
#[derive(Clone, Copy)]
pub struct Entered {
    pub current: u32,
    pub previous: u32,
}
