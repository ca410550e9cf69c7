//! The addresses of places, and the sizes of sections.

ghost use Rattle.std.specs.Prelude.{◌≡◌, length};
ghost use Rattle.asm_relax.specs.Final as spec;

use asm_frags::{Frag, Laid, Section, Sections};

/// How far the plain bytes behind the item are moved by the items up to it.
#[inline(always)]
fn shift_behind(item: &Frag<Laid>) -> u64
    ensures { result ≡ spec.shift_behind item.now }
{
    item.address
        .wrapping_add(item.size)
        .wrapping_sub(item.offset as u64)
}

/// How far the plain bytes behind so many items are moved.
#[inline(always)]
#[tactic(auto, unfolding(crate::specs::Final::shift_in))]
pub(crate) fn shift_in(items: &[Frag<Laid>], before: u64) -> u64
    ensures { result ≡ spec.shift_in items.now before }
{
    if before == 0 {
        return 0;
    }
    match items.get(before as usize - 1) {
        Some(item) => shift_behind(item),
        None => 0,
    }
}

/// The address of a place: so many items and so many plain bytes stand before it.
#[inline(always)]
pub fn address_in(section: &Section<Laid>, item: u64, offset: u64) -> u64
    ensures { result ≡ spec.address_in section.now.items item offset }
{
    offset.wrapping_add(shift_in(section.items(), item))
}

/// `sh_size`: the address behind all plain bytes and items.
#[tactic(auto, unfolding(crate::specs::Final::section_size))]
pub fn section_size(section: &Section<Laid>) -> u64
    ensures { result ≡ spec.section_size section.now }
{
    address_in(
        section,
        section.items().len() as u64,
        section.bytes().len() as u64,
    )
}

/// The address of a place of a section. It is 0 where there is no such section.
#[inline(always)]
#[tactic(auto, unfolding(crate::specs::Final::address_of))]
pub fn address_of(sections: &Sections<Laid>, section: u32, item: u64, offset: u64) -> u64
    ensures { result ≡ spec.address_of sections.now section item offset }
{
    if (section as usize) < sections.len() {
        address_in(sections.section(section), item, offset)
    } else {
        0
    }
}
