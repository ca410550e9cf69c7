//! Counts of the sections and items of a layout.

ghost use Rattle.std.specs.Prelude.{◌≡◌, ◌≤◌, length, count_by, IfSome};
ghost use Rattle.layout_counts.specs.Counted as spec;

use asm_frags::{Frag, Laid, Section, Sections};
use asm_relax::section_size;
use item_contents::{Content, Growth};

/// What is counted of the sections and items of a layout.
#[derive(Clone, Copy, PartialEq, Eq, Debug)]
pub struct LayoutCounts {
    /// The size of the first section, in bytes.
    pub text_bytes: u64,
    /// The number of jumps that take more than two bytes.
    pub near_jumps: u64,
}

/// Whether what grows is a jump that takes more than two bytes, where it has this size.
fn is_near(kind: Growth, size: u64) -> bool
    ensures { result ≡ spec.is_near kind size }
{
    match kind {
        Growth::Jump(_) => size > 2,
        Growth::Leb128 { signed: _ } | Growth::Advance => false,
    }
}

/// Whether an item is a jump that takes more than two bytes.
fn is_near_jump(item: &Frag<Laid>) -> bool
    ensures { result ≡ spec.is_near_jump item.now }
{
    match &item.content {
        Content::Growing(held) => is_near(held.kind, item.size),
        Content::Run | Content::Fill(_) | Content::Align(_) | Content::Org(_) => false,
    }
}

/// How many of the items are near jumps.
fn near_jumps_in(items: &[Frag<Laid>]) -> u64
    ensures { result ≡ count_by spec.is_near_jump items.now }
{
    let mut count = 0;
    for item in items {
        if is_near_jump(item) {
            count += 1;
        }
    }
    count
}

/// How many items of the sections are near jumps.
fn near_jumps(sections: &[Section<Laid>]) -> Option<u64>
    ensures { IfSome result (λ count. count ≡ spec.near_jumps sections.now) }
{
    let mut count = 0u64;
    for section in sections {
        count = count.checked_add(near_jumps_in(section.items()))?;
    }
    Some(count)
}

/// The size of the first section, in bytes, and 0 where there is none.
fn text_bytes(sections: &[Section<Laid>]) -> u64
    ensures { result ≡ spec.text_bytes sections.now }
{
    match sections.first() {
        Some(text) => section_size(text),
        None => 0,
    }
}

/// What is counted of the sections, unless a number takes more than 64 bits. It takes no memory.
pub fn count_layout(sections: &Sections<Laid>) -> Option<LayoutCounts>
    ensures { IfSome result (λ counts. counts
        ≡ record { text_bytes = spec.text_bytes sections.now; near_jumps = spec.near_jumps sections.now }) }
{
    let sections = sections.as_slice();
    Some(LayoutCounts {
        text_bytes: text_bytes(sections),
        near_jumps: near_jumps(sections)?,
    })
}
