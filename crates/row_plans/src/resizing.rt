//! Rows that get another size, and the rows behind them that this moves.

ghost use Rattle.std.specs.Prelude.{◌≡◌, ◌⊎◌, ℕ, ◌+◌, ◌%◌, ◌^◌, ◌<◌, ◌≤◌, List, None, IfSome, All, length, slice_index, slice_index_or, slice_set};
ghost use Rattle.asm_levels.specs.declared.rows.Row.{Row};
ghost use Rattle.asm_levels.specs.Sizes as spec;
ghost use Rattle.asm_levels.specs.Shifts.{shifts_of};
ghost use Rattle.asm_levels.specs.Standing.{AllStand};
ghost use Rattle.asm_levels.specs.RowLists.{AreEnds, AreDependents};
ghost use Rattle.row_plans.specs.Resizing.{AreMoved, AreSizedBut, AreResized, size_of_level};

use crate::placing::place;
use asm_levels::{EndedRows, PackedRow, note, size_at, size_from};
use range_table::RangeTable;

/// The size of the row of this index at its level and address, where the rows up to it are moved so far.
#[inline(always)]
fn size_here(rows: &[PackedRow], levels: &[u8], shifts: &RangeTable, index: usize) -> u64
    requires inside { index < length rows.now }
    requires stand { AllStand rows.now }
    requires bytes { spec.most_in rows.now < 2 ^ 62 }
    requires levels { All (λ level. level ≤ 9) levels.now }
    requires as_many_levels { length levels.now ≡ length rows.now }
    requires as_many_shifts { length shifts.now ≡ length rows.now }
    requires small { (at : ℕ) → at ≤ index → slice_index shifts.now at < 2 ^ 62 }
    ensures { (default : Row) → result ≡ spec.size_at shifts.now
        (slice_index_or rows.now index default).size (slice_index levels.now index)
        ((slice_index_or rows.now index default).offset + slice_index shifts.now index) }
{
    size_at(shifts, &rows[index], levels[index], shifts.get(index))
}

/// The size of the row of this index, which does not depend on its address, at its level.
#[inline(always)]
fn size_of_level(rows: &[PackedRow], levels: &[u8], index: usize) -> u64
    requires inside { index < length rows.now }
    requires stand { AllStand rows.now }
    requires bytes { spec.most_in rows.now < 2 ^ 62 }
    requires levels { All (λ level. level ≤ 9) levels.now }
    requires as_many_levels { length levels.now ≡ length rows.now }
    ensures { (default : Row) → result ≡ size_of_level
        (slice_index_or rows.now index default).size (slice_index levels.now index) }
{
    size_from(0, &rows[index], levels[index], 0)
}

/// The size of the row of this index by the shifts, modulo 2^64, if it moves rows behind it.
#[inline(always)]
fn size_now(all: EndedRows, index: usize, shifts: &RangeTable) -> Option<u64>
    requires ends { AreEnds all.rows.now all.ends.now }
    requires inside { index < length all.rows.now }
    requires as_many_shifts { length shifts.now ≡ length all.rows.now }
    ensures size { IfSome result (λ bytes. (sizes : List ℕ) → AreMoved all.entry.rows.now sizes shifts.now
        → bytes ≡ slice_index sizes index % 2 ^ 64) }
    ensures some { IfSome result (λ bytes. index + 1 < slice_index all.entry.ends.now index) }
    ensures none { result ≡ None → slice_index all.entry.ends.now index ≡ index + 1 }
{
    let next = index + 1;
    if next < all.ends[index] as usize {
        Some(shifts.get(next).wrapping_sub(shifts.get(index)))
    } else {
        None
    }
}

/// Gives the row of this index a size, and moves what stands behind it.
fn resize(all: EndedRows, index: usize, size: u64, shifts: &mut RangeTable)
    requires ends { AreEnds all.rows.now all.ends.now }
    requires inside { index < length all.rows.now }
    requires as_many_shifts { length shifts.old ≡ length all.rows.now }
    ensures moved { (sizes : List ℕ) → AreMoved all.entry.rows.now sizes shifts.old
        → AreMoved all.entry.rows.now (slice_set sizes index size) shifts.new }
    ensures as_many_shifts { length shifts.new ≡ length all.entry.rows.now }
{
    if let Some(old) = size_now(all, index, shifts) {
        if size != old {
            shifts.add(index + 1, all.ends[index] as usize, size.wrapping_sub(old));
        }
    }
}

/// Puts a row at this place of a list unless it has this size. Answers the place behind it.
fn note_changed(
    all: EndedRows,
    list: &mut [u32],
    place: usize,
    row: usize,
    size: u64,
    shifts: &RangeTable,
) -> usize
    requires few { length all.rows.now < 2 ^ 32 }
    requires ends { AreEnds all.rows.now all.ends.now }
    requires inside { row < length all.rows.now }
    requires as_many_shifts { length shifts.now ≡ length all.rows.now }
    requires room { place < length list.old }
    ensures kept { (at : ℕ) → at < place → slice_index list.new at ≡ slice_index list.old at }
    ensures noted { ((result ≡ place) × ((sizes : List ℕ) → AreMoved all.entry.rows.now sizes shifts.now
        → size ≡ slice_index sizes row % 2 ^ 64))
        ⊎ ((result ≡ place + 1) × (slice_index list.new place ≡ row)) }
    ensures as_many { length list.new ≡ length list.old }
{
    if let Some(old) = size_now(all, row, shifts) {
        if size == old {
            return place;
        }
    }
    note(list, place, row);
    place + 1
}

/// Gives each of these rows, whose levels have risen, the size of its level, and copies the list.
pub(crate) fn resize_risen(
    all: EndedRows,
    levels: &[u8],
    risen: &[u32],
    shifts: &mut RangeTable,
    touched: &mut [u32],
)
    requires stand { AllStand all.rows.now }
    requires bytes { spec.most_in all.rows.now < 2 ^ 62 }
    requires levels { All (λ level. level ≤ 9) levels.now }
    requires as_many_levels { length levels.now ≡ length all.rows.now }
    requires as_many_shifts { length shifts.old ≡ length all.rows.now }
    requires ends { AreEnds all.rows.now all.ends.now }
    requires inside { All (λ row. row < length all.rows.now) risen.now }
    requires room { length risen.now ≤ length touched.old }
    ensures resized { (sizes : List ℕ)
        → AreSizedBut all.entry.rows.now levels.now sizes shifts.old (length risen.now) risen.now
        → AreResized all.entry.rows.now levels.now sizes shifts.new (length risen.now) touched.new }
    ensures within { (at : ℕ) → at < length risen.now
        → slice_index touched.new at < length all.entry.rows.now }
    ensures as_many_shifts { length shifts.new ≡ length all.entry.rows.now }
    ensures as_many_touched { length touched.new ≡ length touched.old }
{
    for (place, row) in risen.iter().enumerate() {
        let index = *row as usize;
        touched[place] = *row;
        resize(all, index, size_of_level(all.rows, levels, index), shifts);
    }
}

/// Gives each row whose size depends on its address that size, one after the other, and puts those with another size
/// than before behind the first so many of the list. Answers how many the list has then.
pub(crate) fn resize_dependents(
    all: EndedRows,
    levels: &[u8],
    dependents: &[u32],
    shifts: &mut RangeTable,
    touched: &mut [u32],
    start: usize,
) -> usize
    requires stand { AllStand all.rows.now }
    requires bytes { spec.most_in all.rows.now < 2 ^ 62 }
    requires few { length all.rows.now < 2 ^ 32 }
    requires levels { All (λ level. level ≤ 9) levels.now }
    requires as_many_levels { length levels.now ≡ length all.rows.now }
    requires as_many_shifts { length shifts.old ≡ length all.rows.now }
    requires ends { AreEnds all.rows.now all.ends.now }
    requires dependents { AreDependents all.rows.now dependents.now }
    requires resized { (before : List ℕ)
        × AreResized all.rows.now levels.now before shifts.old start touched.old }
    requires room { start + length dependents.now ≤ length touched.old }
    requires within { (at : ℕ) → at < start
        → slice_index touched.old at < length all.rows.now }
    ensures shifts { shifts.new ≡ shifts_of all.entry.rows.now levels.now }
    ensures resized { (before : List ℕ)
        → AreResized all.entry.rows.now levels.now before shifts.old start touched.old
        → AreResized all.entry.rows.now levels.now before shifts.new result touched.new }
    ensures within { (at : ℕ) → at < result
        → slice_index touched.new at < length all.entry.rows.now }
    ensures end { result ≤ length touched.new }
    ensures as_many_touched { length touched.new ≡ length touched.old }
{
    let mut place = start;
    for row in dependents {
        let index = *row as usize;
        let size = size_here(all.rows, levels, shifts, index);
        place = note_changed(all, touched, place, index, size, shifts);
        resize(all, index, size, shifts);
    }
    place
}

/// Moves the rows as their levels ask for. So many of them have risen: those of the list, if it had room for so many.
/// Answers how many rows then have another size, which are put into a list, or none where it places all anew.
pub(crate) fn move_rows(
    all: EndedRows,
    dependents: &[u32],
    levels: &[u8],
    risen: &[u32],
    count: usize,
    shifts: &mut RangeTable,
    touched: &mut [u32],
) -> Option<usize>
    requires stand { AllStand all.rows.now }
    requires bytes { spec.most_in all.rows.now < 2 ^ 62 }
    requires few { length all.rows.now < 2 ^ 32 }
    requires levels { All (λ level. level ≤ 9) levels.now }
    requires as_many_levels { length levels.now ≡ length all.rows.now }
    requires as_many_shifts { length shifts.old ≡ length all.rows.now }
    requires ends { AreEnds all.rows.now all.ends.now }
    requires dependents { AreDependents all.rows.now dependents.now }
    requires inside { (at : ℕ) → at < count → at < length risen.now
        → slice_index risen.now at < length all.rows.now }
    requires sized { count ≤ length risen.now → (sizes : List ℕ)
        × AreSizedBut all.rows.now levels.now sizes shifts.old count risen.now }
    requires room { length risen.now + length dependents.now ≤ length touched.old }
    ensures shifts { shifts.new ≡ shifts_of all.entry.rows.now levels.now }
    ensures resized { IfSome result (λ many. (sizes : List ℕ)
        × AreMoved all.entry.rows.now sizes shifts.old
        × AreResized all.entry.rows.now levels.now sizes shifts.new many touched.new) }
    ensures within { IfSome result (λ many. (at : ℕ) → at < many
        → slice_index touched.new at < length all.entry.rows.now) }
    ensures end { IfSome result (λ many. many ≤ length touched.new) }
    ensures as_many_touched { length touched.new ≡ length touched.old }
{
    if count > risen.len() {
        place(all.rows, levels, shifts);
        return None;
    }
    let list = &risen[..count];
    resize_risen(all, levels, list, shifts, touched);
    let many = resize_dependents(all, levels, dependents, shifts, touched, count);
    Some(many)
}
