//! Items of sections: a statement's place and contents, and an address and a size once it is laid out.

ghost use Rattle.std.specs.Prelude.{◌≡◌};

use crate::phases::{Laid, Loose, Phase};
use asm_base::Pos;
use item_contents::Content;

/// An item of a section. `Frag::new` alone makes one, and layout gives it an address and a size.
#[derive(Drop)]
#[non_exhaustive]
pub struct Frag<P: Phase> {
    /// The place of its statement, the first one where it is a run.
    pub pos: Pos,
    /// How many plain bytes of its section stand before it.
    pub offset: usize,
    pub content: Content,
    pub address: P::Address,
    /// How many bytes it has beside the plain bytes of its section.
    pub size: P::Address,
}

impl Frag<Loose> {
    ghost use Rattle.asm_frags.specs.Writing.{new_item, item_behind};
    ghost use Rattle.asm_frags.specs.Substituting.{laid_item};

    /// An item of a statement, which is put nowhere so far.
    pub fn new(pos: Pos, content: Content) -> Frag<Loose>
        ensures { result ≡ new_item pos content }
    {
        Frag {
            pos,
            offset: 0,
            content,
            address: (),
            size: (),
        }
    }

    /// The item behind so many plain bytes.
    pub(crate) fn behind(self, bytes: usize) -> Frag<Loose>
        ensures { result ≡ item_behind bytes self }
    {
        let Frag {
            pos,
            offset: _,
            content,
            address: (),
            size: (),
        } = self;
        Frag {
            pos,
            offset: bytes,
            content,
            address: (),
            size: (),
        }
    }

    /// The item at address 0 and without bytes, until layout sets its address and its size.
    pub(crate) fn laid(self) -> Frag<Laid>
        ensures { result ≡ laid_item self }
    {
        let Frag {
            pos,
            offset,
            content,
            address: (),
            size: (),
        } = self;
        Frag {
            pos,
            offset,
            content,
            address: 0,
            size: 0,
        }
    }
}
