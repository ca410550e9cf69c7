//! The known extent of a section, from which the distance of two places follows before layout.

ghost use Rattle.std.specs.Prelude.{◌≡◌, ◌+◌, ◌<◌, ◌≤◌, ◌^◌};
ghost use Rattle.asm_frags.specs.KnownExtents as spec;

use crate::items::Frag;
use crate::phases::Phase;
use item_contents::fixed_size;

/// What is known of the extent of a section before layout. Two places of one section with as many breaks before them
/// are as far apart as their plain bytes and these bytes together.
#[derive(Clone, Copy, PartialEq, Eq, Debug)]
pub struct KnownExtent {
    /// The number of items of several possible sizes.
    pub breaks: u64,
    /// The number of bytes of all other items, without plain bytes.
    pub bytes: u64,
}

impl KnownExtent {
    /// The extent with an item more.
    pub(crate) fn advanced<P: Phase>(self, item: &Frag<P>) -> KnownExtent
        requires few { self.breaks < 2 ^ 28 }
        requires short { self.bytes ≤ 2 ^ 61 }
        ensures extent { result ≡ spec.advanced self item.now }
        ensures breaks { result.breaks ≤ self.breaks + 1 }
        ensures bytes { result.bytes ≤ self.bytes + 2 ^ 33 }
    {
        match fixed_size(&item.content) {
            Some(size) => KnownExtent {
                breaks: self.breaks,
                bytes: self.bytes + size,
            },
            None => KnownExtent {
                breaks: self.breaks + 1,
                bytes: self.bytes,
            },
        }
    }
}
