//! A round: each level is raised to what the row's distance needs.

ghost use Rattle.std.specs.Prelude.{◌≡◌, ◌+◌, ◌^◌, ◌<◌, ◌≤◌, max, ℕ, All, length, slice_index, slice_set, if◌then◌else◌};
ghost use Rattle.level_ranks.specs.Rounds.{raised, Rises};
ghost use Rattle.asm_levels.specs.Needs as spec;
ghost use Rattle.asm_levels.specs.RowLists.{AreListed};
ghost use Rattle.asm_levels.specs.Standing.{NamesRows, AllStand};

use crate::needs::{needed, top};
use crate::packing::PackedRow;
use asm_base::Steps;
use level_ranks::raised_by_index;
use range_table::RangeTable;
use std::sync::ledger::Ledger;

/// The level that a row takes. Where it is at its highest one, its distance is not looked at.
#[inline(always)]
pub fn level_taken<L: Ledger>(
    shifts: &RangeTable,
    row: &PackedRow,
    level: u8,
    steps: &mut Steps<L>,
) -> u8
    requires { NamesRows (length shifts.now) row.now.size }
    ensures level { result ≡ max level (spec.needed shifts.now row.now.size) }
    ensures steps { steps.new
        ≡ steps.old + (if spec.is_below_top row.now.size level then 1 else 0) }
{
    if level >= top(row) {
        return level;
    }
    steps.tick();
    level.max(needed(shifts, row))
}

/// Puts a row at this place of a list, if there is room.
#[inline(always)]
pub fn note(list: &mut [u32], place: usize, row: usize)
    requires { row < 2 ^ 32 }
    ensures { list.new ≡ slice_set list.old place row }
{
    if place < list.len() {
        list[place] = row as u32;
    }
}

/// Raises each level to what the row's distance needs where the rows are moved so far. Answers how many rose, and
/// lists these as far as there is room.
pub fn look<L: Ledger>(
    rows: &[PackedRow],
    shifts: &RangeTable,
    levels: &mut [u8],
    risen: &mut [u32],
    steps: &mut Steps<L>,
) -> usize
    requires stand { AllStand rows.now }
    requires as_many_shifts { length shifts.now ≡ length rows.now }
    requires as_many_levels { length levels.old ≡ length rows.now }
    requires few { length rows.now < 2 ^ 32 }
    ensures levels { levels.new ≡ raised levels.old (spec.levels_needed shifts.now rows.now) }
    ensures rose { 0 < result → Rises levels.old levels.new }
    ensures still { result ≡ 0 → levels.new ≡ levels.old }
    ensures listed { AreListed levels.old levels.new result risen.new }
    ensures inside { (at : ℕ) → at < result → at < length risen.new
        → slice_index risen.new at < length rows.now }
    ensures room { length risen.new ≡ length risen.old }
    ensures at_most { steps.new ≤ steps.old + spec.several rows.now }
    ensures later { steps.old ≤ steps.new }
    ensures lowest { All (λ level. level ≡ 0) levels.old
        → steps.old + spec.several rows.now ≤ steps.new }
{
    raised_by_index();
    let mut count = 0usize;
    for (index, row) in rows.iter().enumerate() {
        let level = level_taken(shifts, row, levels[index], steps);
        if levels[index] < level {
            levels[index] = level;
            note(risen, count, index);
            count += 1;
        }
    }
    count
}
