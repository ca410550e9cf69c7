//! The alignments that items require of their section.

ghost use Rattle.std.specs.Prelude.{◌≡◌, ◌^◌};
ghost use Rattle.item_contents.specs.Contents.{alignment_of};

use crate::contents::{Align, Content, Fill, Growing, Org};
use crate::visiting::FragVisit;
use crate::walking::visit;

/// Tells the alignment that an item requires of its section.
#[derive(Clone, Copy, Debug)]
pub struct AskedAlignment;

impl FragVisit for AskedAlignment {
    type Out = u64;

    ghost run_gives = { λ before answer after. answer ≡ 1 };

    ghost fill_gives = { λ before held answer after. answer ≡ 1 };

    ghost align_gives = { λ before held answer after. answer ≡ 2 ^ held.log };

    ghost org_gives = { λ before held answer after. answer ≡ 1 };

    ghost growing_gives = { λ before held answer after. answer ≡ 1 };

    fn run(&mut self) -> u64 {
        1
    }

    fn fill(&mut self, _held: &Fill) -> u64 {
        1
    }

    fn align(&mut self, held: &Align) -> u64 {
        1 << held.log()
    }

    fn org(&mut self, _held: &Org) -> u64 {
        1
    }

    fn growing(&mut self, _held: Growing) -> u64 {
        1
    }
}

/// The alignment that the item requires of its section: 1 unless it aligns.
pub fn asked_alignment(content: &Content) -> u64
    ensures { result ≡ alignment_of content.now }
{
    let mut visitor = AskedAlignment;
    visit(content, &mut visitor)
}
