//! The addresses and sizes of items, set in place from how far their rows are moved.

ghost use Rattle.std.specs.Prelude.{◌≡◌, ◌+◌, ◌-◌, ◌<◌, ◌≤◌, ◌^◌, IfSome, Some, drop, length, slice_get};
ghost use Rattle.asm_frags.specs.Addresses.{HasItem, sections_laid_at, changed_at};
ghost use Rattle.asm_symbols.specs.SymbolMap.{SymbolMap};
ghost use Rattle.item_rows.specs.ItemRows.{row_count, all_rows};
ghost use Rattle.asm_relax.specs.Layout.{laid_out_section, laid_out};
ghost use Rattle.asm_relax.specs.Placing.{address_there};

use asm_frags::{Frag, Laid, Section, Sections};
use row_plans::RowPlan;

/// The item of this index, which has at most 2^33 plain bytes before it.
fn item_at(section: &Section<Laid>, item: usize) -> &Frag<Laid>
    requires { item < length section.now.items }
    ensures item { slice_get section.now.items item ≡ Some result.now }
    ensures within { result.now.offset ≤ 2 ^ 33 }
{
    // Each item stands within the bytes, which are at most so many.
    let _bytes = section.bytes();
    &section.items()[item]
}

/// Sets the address and the size of an item, whose row and the one behind it are moved so far.
#[tactic(auto, unfolding(crate::specs::Placing::address_there))]
fn lay_item(sections: &mut Sections<Laid>, number: u32, item: usize, shift: u64, next: u64)
    requires section { number < length sections.old }
    requires item { HasItem sections.old number item }
    requires small { shift ≤ 2 ^ 62 }
    ensures sections { sections.new ≡ sections_laid_at sections.old number item
        (address_there sections.old number item shift) (next - shift) }
    ensures kept { length sections.new ≡ length sections.old }
{
    let found = item_at(sections.section(number), item);
    let address = found.offset as u64 + shift;
    sections.lay(number, item, address, next.saturating_sub(shift));
}

/// Sets the addresses and sizes of the items of a section, whose rows begin with this one. Answers
/// the row behind its end mark.
fn lay_section(sections: &mut Sections<Laid>, number: u32, rows: &RowPlan, first: usize) -> usize
    requires section { number < length sections.old }
    requires few { length rows.now.rows < 2 ^ 32 }
    requires rows { IfSome (slice_get sections.old number)
        (λ section. first + row_count section ≤ length rows.now.rows) }
    ensures sections { sections.new
        ≡ changed_at (laid_out_section (drop first rows.now.shifts)) sections.old number }
    ensures next { IfSome (slice_get sections.old number)
        (λ section. result ≡ first + row_count section) }
    ensures kept { length sections.new ≡ length sections.old }
{
    let count = sections.section(number).items().len();
    let mut shift = rows.shift(first);
    for item in 0..count {
        let next = rows.shift(first + item + 1);
        lay_item(sections, number, item, shift, next);
        shift = next;
    }
    first + count + 1
}

/// Sets the addresses and sizes of all items.
pub(crate) fn lay_all(sections: &mut Sections<Laid>, rows: &RowPlan)
    requires few { length rows.now.rows < 2 ^ 32 }
    requires rows { length rows.now.rows ≡ all_rows sections.old }
    ensures { sections.new ≡ laid_out rows.now.shifts sections.old }
{
    let count = sections.len() as u32;
    let mut first = 0;
    for number in 0..count {
        first = lay_section(sections, number, rows, first);
    }
}
