//! The range checks of a layout: sections that are too large, then `.org`s that move back, and then fields that do not
//! hold their values.

ghost use Rattle.std.specs.Prelude.{◌≡◌, ◌+◌, ◌^◌, ◌<◌, ◌≤◌, ◌∷◌, [], true, false, None, All, IfSome, MatchOption, length, nat_lt, option_map};
ghost use Rattle.std.specs.List.{position_or_len};
ghost use Rattle.asm_relax.specs.Faults.{first_of};
ghost use Rattle.asm_relax.specs.LowPlaces.{MovesOn, KeepsLow, StandLow, StandWithin, IsSmall};
ghost use Rattle.asm_relax.specs.RangeChecks.{origin_shift, moves_back, section_back, is_large, begins_late, first_large, large_place, last_item, whole_size, large_section, misfit, field_misfit, section_misfit, first_fault};
ghost use Rattle.x86_insn.specs.declared.amounts.FieldKind.TheVariants.{Number};

use crate::faults::LayoutFault;
use crate::field_values::{held_value, is_near_pair, spot_within};
use crate::places::{section_size, shift_in};
use asm_base::Pos;
use asm_expr::Term;
use asm_frags::{Field, FieldSize, Frag, Laid, Section, Sections};
use asm_symbols::{Spot, Symbols};
use item_contents::{Align, Fill, FragVisit, Growing, Org, visit};
use x86_insn::FieldKind;

/// The most bytes of a section.
const MOST_BYTES: u64 = 1 << 30;

/// The first line of the source file.
const SOURCE_START: Pos = Pos { file: 0, line: 1 };

/// Whether a section that ends at this address is too large.
fn is_large(end: u64) -> bool
    ensures { result ≡ is_large end }
{
    end > MOST_BYTES
}

/// How many items begin before the first one that begins behind more than the most bytes.
fn begun_early(items: &[Frag<Laid>]) -> usize
    ensures { result ≡ position_or_len begins_late items.now }
{
    for (index, item) in items.iter().enumerate() {
        if is_large(item.address) {
            return index;
        }
    }
    items.len()
}

/// The item that ends, with its plain bytes, past the most bytes of a section: the one before the
/// first that begins late, or the last one where none does.
fn first_large(items: &[Frag<Laid>]) -> Option<&Frag<Laid>>
    ensures { option_map (λ item. item.now) result ≡ first_large items.now }
{
    items.get(begun_early(items).saturating_sub(1))
}

/// Its place, or the first line where there are no items.
fn large_place(items: &[Frag<Laid>]) -> Pos
    ensures { result ≡ large_place items.now }
{
    match first_large(items) {
        Some(first) => first.pos,
        None => SOURCE_START,
    }
}

/// The last item of a section, which stands within its plain bytes.
fn last_item(section: &Section<Laid>) -> Option<&Frag<Laid>>
    ensures item { option_map (λ item. item.now) result ≡ last_item section.now.items }
    ensures within { IfSome result (λ item. item.now.offset ≤ length section.now.bytes) }
{
    let items = section.items();
    items.get(items.len().saturating_sub(1))
}

/// How many bytes a section has, if their number fits in 64 bits.
fn whole_size(section: &Section<Laid>) -> Option<u64>
    ensures { MatchOption result (2 ^ 64 ≤ whole_size section.now)
        (λ size. size ≡ whole_size section.now) }
{
    let bytes = section.bytes().len() as u64;
    match last_item(section) {
        None => Some(bytes),
        Some(item) => {
            let end = item.address.checked_add(item.size)?;
            bytes.checked_add(end.saturating_sub(item.offset as u64))
        }
    }
}

/// Whether a section has more than 2^30 bytes.
fn is_over(section: &Section<Laid>) -> bool
    ensures { result ≡ is_large (whole_size section.now) }
{
    match whole_size(section) {
        None => true,
        Some(size) => is_large(size),
    }
}

/// The fault of a section that is too large, at the first item that ends past the most bytes.
fn large_section(section: &Section<Laid>) -> Option<LayoutFault>
    ensures { result ≡ large_section section.now }
{
    if !is_over(section) {
        return None;
    }
    Some(LayoutFault::SectionTooLarge {
        pos: large_place(section.items()),
        size: section_size(section),
    })
}

/// The fault of the first section that is too large.
fn first_large_section(sections: &[Section<Laid>]) -> Option<LayoutFault>
    ensures { result ≡ first_of large_section sections.now }
{
    for section in sections {
        let found = large_section(section);
        if found.is_some() {
            return found;
        }
    }
    None
}

/// The fault of any field that has a value and does not hold it.
#[inline(never)]
fn any_misfit(symbols: &Symbols, sections: &Sections<Laid>, field: &Field) -> Option<LayoutFault>
    ensures { result ≡ field_misfit symbols.now sections.now field.now }
{
    let distance = held_value(symbols, sections, field)?;
    if field.size.holds(field.role.kind, distance) {
        return None;
    }
    Some(LayoutFault::DistanceOutOfRange {
        pos: field.pos,
        distance,
    })
}

/// Whether the field has four bytes, and the number of its form is near to 0.
#[inline(always)]
fn is_small(field: &Field) -> bool
    ensures { result ≡ true → IsSmall field.now }
{
    matches!(field.size, FieldSize::Four)
        && u64::from(field.role.behind) < 1 << 8
        && field.form.constant().wrapping_add(1 << 29) <= 1 << 30
}

/// Whether no more plain bytes than the section has stand before these places.
#[inline(always)]
fn are_within(section: &Section<Laid>, spot: Spot, field: &Field) -> bool
    ensures within { result ≡ true → StandWithin section.now spot.place.place.offset field.now.offset }
    ensures low { StandLow section.now }
{
    let bytes = section.bytes();
    let _items = section.items();
    let most = bytes.len();
    spot.place.place.offset <= most as u64 && field.offset <= most
}

/// Whether the field of these two terms leads to a place of its section, and both stand low in it: it holds its value.
#[inline(always)]
fn is_near(
    symbols: &Symbols,
    sections: &Sections<Laid>,
    field: &Field,
    one: &Term,
    other: &Term,
) -> bool
    requires terms { field.now.form.terms ≡ one.now ∷ other.now ∷ [] }
    requires low { All KeepsLow sections.now }
    ensures { result ≡ true → field_misfit symbols.now sections.now field.now ≡ None }
{
    if !is_near_pair(symbols, field, one, other) {
        return false;
    }
    let Some(spot) = spot_within(symbols, field.section, one.symbol) else {
        return false;
    };
    let Some(section) = sections.as_slice().get(field.section as usize) else {
        return false;
    };
    are_within(section, spot, field) && is_small(field)
}

/// Whether a field of this kind takes as many bytes as its value needs.
#[inline(always)]
fn is_number(kind: FieldKind) -> bool
    ensures { result ≡ true → kind ≡ Number }
{
    matches!(kind, FieldKind::Number)
}

/// Whether it is plain that a field holds its value, without that value.
#[inline(always)]
fn is_plain(symbols: &Symbols, sections: &Sections<Laid>, field: &Field) -> bool
    requires low { All KeepsLow sections.now }
    ensures { result ≡ true → field_misfit symbols.now sections.now field.now ≡ None }
{
    if is_number(field.role.kind) {
        return true;
    }
    match field.form.terms() {
        [one, other] => is_near(symbols, sections, field, one, other),
        _ => false,
    }
}

/// The fault of the first field of a section that does not hold its value. The value of most jumps is not worked out.
fn section_misfit(
    symbols: &Symbols,
    sections: &Sections<Laid>,
    section: &Section<Laid>,
) -> Option<LayoutFault>
    requires low { All KeepsLow sections.now }
    ensures { result ≡ section_misfit symbols.now sections.now section.now }
{
    let fields = section.fields();
    for field in fields {
        if is_plain(symbols, sections, field) {
            continue;
        }
        let found = any_misfit(symbols, sections, field);
        if found.is_some() {
            return found;
        }
    }
    None
}

/// The fault of the first field that does not hold its value.
fn first_misfit(symbols: &Symbols, sections: &Sections<Laid>) -> Option<LayoutFault>
    requires low { All KeepsLow sections.now }
    ensures { result ≡ first_of (section_misfit symbols.now sections.now) sections.now }
{
    let all = sections.as_slice();
    for section in all {
        let found = section_misfit(symbols, sections, section);
        if found.is_some() {
            return found;
        }
    }
    None
}

/// Tells whether an item of this index and address, one of these items, is an `.org` to a place
/// before it.
#[derive(Drop)]
struct MovesBack<'a> {
    items: &'a [Frag<Laid>],
    index: usize,
    address: u64,
}

impl FragVisit for MovesBack<'_> {
    type Out = bool;

    ghost run_gives = { λ before answer after. answer ≡ false };

    ghost fill_gives = { λ before held answer after. answer ≡ false };

    ghost align_gives = { λ before held answer after. answer ≡ false };

    ghost org_gives = { λ before held answer after.
        answer ≡ nat_lt (origin_shift before.items.now before.index held + held.ahead)
        (before.address + held.behind) };

    ghost growing_gives = { λ before held answer after. answer ≡ false };

    fn run(&mut self) -> bool {
        false
    }

    fn fill(&mut self, _held: &Fill) -> bool {
        false
    }

    fn align(&mut self, _held: &Align) -> bool {
        false
    }

    fn org(&mut self, held: &Org) -> bool {
        let between = self.index.saturating_sub(held.from() as usize);
        let shift = shift_in(self.items, (self.index - between) as u64);
        let target = u128::from(shift) + u128::from(held.ahead());
        target < u128::from(self.address) + u128::from(held.behind())
    }

    fn growing(&mut self, _held: Growing) -> bool {
        false
    }
}

/// Whether the item of this index, one of these, is an `.org` to a place before it.
fn moves_back(items: &[Frag<Laid>], index: usize, item: &Frag<Laid>) -> bool
    ensures { result ≡ moves_back items.now index item.now.address item.now.content }
{
    let mut visitor = MovesBack {
        items,
        index,
        address: item.address,
    };
    visit(&item.content, &mut visitor)
}

/// The fault of the first item of a section that is an `.org` to a place before it.
fn section_back(section: &Section<Laid>) -> Option<LayoutFault>
    ensures { result ≡ section_back section.now }
{
    let items = section.items();
    for (index, item) in items.iter().enumerate() {
        if moves_back(items, index, item) {
            return Some(LayoutFault::OrgMovesBackwards { pos: item.pos });
        }
    }
    None
}

/// The first such fault of all sections.
fn first_section_back(sections: &[Section<Laid>]) -> Option<LayoutFault>
    ensures { result ≡ first_of section_back sections.now }
{
    for section in sections {
        let found = section_back(section);
        if found.is_some() {
            return found;
        }
    }
    None
}

/// The first fault: sections that are too large come before `.org`s that move back, and these before
/// all fields.
#[tactic(auto, unfolding(crate::specs::RangeChecks::first_fault))]
pub(crate) fn first_fault(symbols: &Symbols, sections: &Sections<Laid>) -> Option<LayoutFault>
    requires moves { All MovesOn sections.now }
    ensures { result ≡ first_fault symbols.now sections.now }
{
    let found = first_large_section(sections.as_slice());
    if found.is_some() {
        return found;
    }
    let found = first_section_back(sections.as_slice());
    if found.is_some() {
        return found;
    }
    first_misfit(symbols, sections)
}
