//! How far a section reaches.

ghost use Rattle.std.specs.Prelude.{◌≡◌, IfSome, ◌<◌, length};
ghost use Rattle.table_pieces.specs.Ends as spec;

use asm_base::{Place, SectionPlace};
use asm_frags::Sections;

/// The end of a section: how many items and plain bytes it has, and whether its last item is a run, so that plain bytes go
/// on with it.
#[derive(Clone, Copy, PartialEq, Eq, Debug)]
pub struct SectionEnd {
    pub items: u64,
    pub bytes: u64,
    pub in_run: bool,
}

impl SectionEnd {
    /// The end of the section of this number, whose last item is a run.
    #[tactic(auto, unfolding(crate::specs::Ends::end_of))]
    pub fn of(sections: &Sections, number: u32) -> SectionEnd
        requires { number < length sections.now }
        ensures { result ≡ spec.end_of number sections.now }
    {
        let section = sections.section(number);
        SectionEnd {
            items: section.items().len() as u64,
            bytes: section.bytes().len() as u64,
            in_run: true,
        }
    }

    /// The end behind so many plain bytes more, where its numbers fit in 64 bits.
    pub fn behind_plain(self, count: u64) -> Option<SectionEnd>
        ensures { IfSome result (λ end. end ≡ spec.behind_plain count self) }
    {
        let items = if self.in_run {
            self.items
        } else {
            self.items.checked_add(1)?
        };
        Some(SectionEnd {
            items,
            bytes: self.bytes.checked_add(count)?,
            in_run: true,
        })
    }

    /// The end behind an item more, where its numbers fit in 64 bits.
    pub fn behind_item(self) -> Option<SectionEnd>
        ensures { IfSome result (λ end. end ≡ spec.behind_item self) }
    {
        Some(SectionEnd {
            items: self.items.checked_add(1)?,
            bytes: self.bytes,
            in_run: false,
        })
    }

    /// The end as a place of the section of this number.
    pub fn place(self, section: u32) -> SectionPlace
        ensures { result ≡ spec.end_place section self }
    {
        SectionPlace {
            section,
            place: Place {
                item: self.items,
                offset: self.bytes,
            },
        }
    }
}
