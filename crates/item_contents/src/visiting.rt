//! Visitors of items.

ghost use Rattle.item_contents.specs.ItemParts.{FillOf, AlignOf, OrgOf};
ghost use Rattle.item_contents.specs.declared.contents.Growing.{Growing as GrowingOf};

use crate::contents::{Align, Fill, Growing, Org};

/// A visitor of items: an answer for each kind of contents.
pub trait FragVisit {
    /// The answer for an item.
    type Out;

    /// The visitor before, the answer for a run, and the visitor after.
    ghost run_gives: { Self → Self.Out → Self → Type 0 };

    /// The visitor before, the fill, the answer, and the visitor after.
    ghost fill_gives: { Self → FillOf → Self.Out → Self → Type 0 };

    /// The visitor before, the alignment, the answer, and the visitor after.
    ghost align_gives: { Self → AlignOf → Self.Out → Self → Type 0 };

    /// The visitor before, the `.org`, the answer, and the visitor after.
    ghost org_gives: { Self → OrgOf → Self.Out → Self → Type 0 };

    /// The visitor before, what grows, the answer, and the visitor after.
    ghost growing_gives: { Self → GrowingOf → Self.Out → Self → Type 0 };

    /// The answer for a run, whose bytes are plain bytes of its section.
    fn run(&mut self) -> Self::Out
        ensures { run_gives self.old result self.new };

    /// The answer for a fill.
    fn fill(&mut self, held: &Fill) -> Self::Out
        ensures { fill_gives self.old held.now result self.new };

    /// The answer for an alignment.
    fn align(&mut self, held: &Align) -> Self::Out
        ensures { align_gives self.old held.now result self.new };

    /// The answer for an `.org`.
    fn org(&mut self, held: &Org) -> Self::Out
        ensures { org_gives self.old held.now result self.new };

    /// The answer for what grows with its value.
    fn growing(&mut self, held: Growing) -> Self::Out
        ensures { growing_gives self.old held result self.new };
}
