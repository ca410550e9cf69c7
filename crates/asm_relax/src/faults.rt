//! The faults of a layout.

use asm_base::Pos;
use thiserror::Error;

/// A fault of a layout, at the statement of its item.
#[derive(Clone, Copy, Debug, PartialEq, Eq, Error)]
pub enum LayoutFault {
    /// A section has more than 2^30 bytes.
    #[error("section is too large")]
    SectionTooLarge { pos: Pos, size: u64 },
    /// An `.org` leads to a place before it.
    #[error("org moves backwards")]
    OrgMovesBackwards { pos: Pos },
    /// A field does not hold its value.
    #[error("distance out of range")]
    DistanceOutOfRange { pos: Pos, distance: u64 },
}

impl LayoutFault {
    /// The place of the statement.
    pub fn pos(&self) -> Pos {
        match self {
            LayoutFault::SectionTooLarge { pos, .. } => *pos,
            LayoutFault::OrgMovesBackwards { pos } => *pos,
            LayoutFault::DistanceOutOfRange { pos, .. } => *pos,
        }
    }
}
