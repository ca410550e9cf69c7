//! The dispatch of an item to a visitor.

ghost use Rattle.item_contents.specs.Visits.{Visits};

use crate::contents::Content;
use crate::visiting::FragVisit;

/// The visitor's answer for the contents of an item.
pub fn visit<V: FragVisit>(content: &Content, visitor: &mut V) -> V::Out
    ensures { Visits (record {
      run = V.run_gives;
      fill = V.fill_gives;
      align = V.align_gives;
      org = V.org_gives;
      growing = V.growing_gives;
    }) content.now visitor.old result visitor.new }
{
    match content {
        Content::Run => visitor.run(),
        Content::Fill(held) => visitor.fill(held),
        Content::Align(held) => visitor.align(held),
        Content::Org(held) => visitor.org(held),
        Content::Growing(held) => visitor.growing(*held),
    }
}
