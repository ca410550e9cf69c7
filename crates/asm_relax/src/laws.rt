//! What holds of every layout.

ghost use Rattle.std.specs.Prelude.{◌≡◌, ℕ, ◌+◌, ◌<◌, ◌≤◌, ◌^◌, ◌++◌, List, All, length, map, option_map, slice_get};
ghost use Rattle.asm_expr.specs.Forms.{wrapped};
ghost use Rattle.asm_symbols.specs.SymbolMap.{SymbolMap};
ghost use Rattle.asm_frags.specs.Addresses.{item_laid_at};
ghost use Rattle.asm_frags.specs.KnownExtents.{extent_of};
ghost use Rattle.item_rows.specs.ItemRows.{rows_of, levels_of};
ghost use Rattle.asm_relax.specs.FieldValues.{DistancesLead};
ghost use Rattle.asm_relax.specs.Final.{shift_in};
ghost use Rattle.asm_relax.specs.ItemValues.{HoldTheirDistances, HoldWhereSettled, HaveRoom};
ghost use Rattle.asm_relax.specs.Layout.{laid_by, laid_out, without_addresses, AreSized, AreWithin, HaveSizes, IsInRow};
ghost use Rattle.asm_relax.specs.Placing.{placed_from, placed_section, shift_of};
ghost use Rattle.asm_relax.specs.Settling.{LaidItem, LaidSections, settled_sections};
ghost use Rattle.asm_relax.specs.SettledRoom.{SettledHaveRoom};
ghost use Rattle.asm_relax.specs.ValueRanges.{ValuesAreInRange};
ghost use Rattle.asm_levels.specs.declared.rows.Row.{Row as TheRow};
ghost use Rattle.asm_levels.specs.Needs.{need, tops};
ghost use Rattle.level_ranks.specs.Ranks.{IsLayout};
ghost use Rattle.item_rows.specs.ItemRows.{all_rows, rows_of, levels_of};
ghost use Rattle.asm_relax.specs.KeptSections.{LayoutsKeepSections};
ghost use Rattle.asm_relax.specs.RisingRows.{AllRise};
ghost use Rattle.asm_levels.specs.Shifts.{shifts_of};

use asm_expr::whole_stretches_cancel;
use asm_levels::needs_stay_within_tops;
use item_bytes::{
    advances_hold_their_distance, groups_hold_their_number, short_jumps_hold_a_signed_byte,
};
use level_ranks::{layouts_are_reached, some_ranking};
use row_distances::distances_are_values;

/// Whatever the levels of rows, up to the highest, the items of a section stand one behind the other, from address 0 on, and have the sizes
/// that they have there.
#[tactic(auto, using(crate::proofs::ShiftTail::laid_is_placed, crate::proofs::ShiftTail::laid_is_sized, crate::proofs::ShiftTail::laid_has_sizes, crate::proofs::ShiftTail::laid_in_rows))]
pub fn items_stand_in_row()
    ensures placed { (symbols : SymbolMap) (levels : List ℕ) (sections : LaidSections)
        → AreWithin levels (rows_of symbols sections)
        → map placed_section (laid_by symbols levels sections) ≡ laid_by symbols levels sections }
    ensures sized { (symbols : SymbolMap) (levels : List ℕ) (sections : LaidSections)
        → AreWithin levels (rows_of symbols sections)
        → All (λ section. AreSized section.items) (laid_by symbols levels sections) }
    ensures sizes { (symbols : SymbolMap) (levels : List ℕ) (sections : LaidSections)
        → AreWithin levels (rows_of symbols sections)
        → All (λ section. HaveSizes section.items) (laid_by symbols levels sections) }
    ensures rows { (symbols : SymbolMap) (levels : List ℕ) (sections : LaidSections)
        → AreWithin levels (rows_of symbols sections)
        → All (λ section. IsInRow section.items) (laid_by symbols levels sections) }
{}

/// The levels by which sections are laid out are those that the one ranking takes.
pub fn settled_by_the_ranking()
    ensures { (rows : List TheRow)
        → (rounds : ℕ) × IsLayout (need rows) (tops rows) (levels_of rows) rounds }
{
    layouts_are_reached();
    needs_stay_within_tops();
    some_ranking();
}

/// A layout changes nothing but addresses and sizes.
#[tactic(auto, using(crate::proofs::LawLemmas::sections_kept))]
pub fn all_else_is_kept()
    ensures { (shifts : List ℕ) (sections : LaidSections)
        → without_addresses (laid_out shifts sections) ≡ without_addresses sections }
{}

/// The items of settled sections stand one behind the other, and have sizes that they may have.
pub fn settled_is_placed()
    ensures placed { (symbols : SymbolMap) (sections : LaidSections)
        → map placed_section (settled_sections symbols sections)
        ≡ settled_sections symbols sections }
    ensures sized { (symbols : SymbolMap) (sections : LaidSections)
        → All (λ section. AreSized section.items) (settled_sections symbols sections) }
{
    layouts_are_reached();
    needs_stay_within_tops();
    some_ranking();
}

/// A place is moved by the sum of the sizes of the items before it, and so is the end of a section
/// by that of all.
#[tactic(auto, using(crate::proofs::LawLemmas::placed_get, crate::proofs::LawLemmas::placed_length, crate::proofs::LawLemmas::placed_shift))]
pub fn sizes_add_up()
    ensures item { (items : List LaidItem) (index : ℕ)
        → slice_get (placed_from 0 items) index
        ≡ option_map (λ item. item_laid_at (item.offset + shift_of index 0 items) item.size item)
        (slice_get items index) }
    ensures length { (items : List LaidItem) → length (placed_from 0 items) ≡ length items }
    ensures shift { (items : List LaidItem) (before : ℕ) → before ≤ length items
        → All (λ item. item.offset < 2 ^ 64) items
        → shift_in (placed_from 0 items) before ≡ wrapped (shift_of before 0 items) }
{}

/// Two places of a section with as many breaks before them are as far apart in every layout as is
/// known before it: the items between them move the second one by the bytes of their known extent.
#[tactic(auto, using(crate::proofs::StretchLemmas::stretch_keeps_distance))]
pub fn stretches_keep_distance()
    ensures { (before more : List LaidItem) → AreSized (before ++ more)
        → (extent_of (before ++ more)).breaks ≡ (extent_of before).breaks
        → shift_of (length (before ++ more)) 0 (before ++ more) + (extent_of before).bytes
        ≡ shift_of (length before) 0 (before ++ more) + (extent_of (before ++ more)).bytes }
{}

/// A distance to a label of its section leads from the end of its instruction to the label.
pub fn distances_lead_to_labels()
    ensures { DistancesLead }
{}

/// Whatever the levels of the rows, what a field in an item holds in the object is the distance of the
/// item's row, and where the row has no distance, the field has no value. A jump counts its distance
/// from its end, and its field begins before that.
pub fn fields_hold_their_distances()
    ensures levels { HoldTheirDistances }
    ensures settled { HoldWhereSettled }
{
    whole_stretches_cancel();
    distances_are_values();
    layouts_are_reached();
    needs_stay_within_tops();
    some_ranking();
}

/// An item, the row of which needs no more than its level, has room at that level for the value that
/// the object holds in it.
pub fn items_have_room_for_their_values()
    ensures { HaveRoom }
{
    fields_hold_their_distances();
    short_jumps_hold_a_signed_byte();
    groups_hold_their_number();
    advances_hold_their_distance();
}

/// Where a layout has no fault, each field that has a value holds it in its size, as its kind says.
#[tactic(auto, using(crate::proofs::RangeLemmas::values_in_range))]
pub fn values_are_in_range()
    ensures { ValuesAreInRange }
{}

/// An item of a layout that grows has the size of a level at which it has room for the value that
/// the object holds in it; and where the layout has no fault, so has a near jump in its four bytes.
pub fn settled_items_have_room()
    ensures { SettledHaveRoom }
{
    fields_hold_their_distances();
    items_have_room_for_their_values();
    needs_stay_within_tops();
    settled_by_the_ranking();
}

/// A layout keeps the offsets of items and the places of fields, and each section stands in it as it
/// is laid out.
pub fn layouts_keep_sections()
    ensures { LayoutsKeepSections }
{
    settled_is_placed();
}

/// In a layout each row of a section is moved as far as the one before it or farther, and the first one
/// not at all. There are as many shifts as rows.
pub fn rows_rise()
    ensures rise { (symbols : SymbolMap) (sections : LaidSections)
        → AllRise (shifts_of (rows_of symbols sections) (levels_of (rows_of symbols sections)))
        sections }
    ensures count { (symbols : SymbolMap) (levels : List ℕ) (sections : LaidSections)
        → length (shifts_of (rows_of symbols sections) levels) ≡ all_rows sections }
{
    layouts_are_reached();
    needs_stay_within_tops();
    some_ranking();
}
