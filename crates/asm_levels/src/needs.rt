//! The levels that the distances of rows need.

ghost use Rattle.std.specs.Prelude.{◌≡◌, ◌≤◌, length};
ghost use Rattle.asm_levels.specs.Needs as spec;
ghost use Rattle.asm_levels.specs.Standing.{NamesRows};

use crate::distances::{distance_value, value_between};
use crate::packing::{Held, PackedRow};
use crate::rows::RowSize;
use item_bytes::{advance_level, jump_level, leb128_level};
use range_table::RangeTable;

/// The least level that holds the distance of a row in an allocation of its own.
#[tactic(auto, unfolding(crate::specs::Needs::needed))]
#[inline(never)]
fn needed_other(shifts: &RangeTable, size: &RowSize) -> u8
    requires { NamesRows (length shifts.now) size.now }
    ensures { result ≡ spec.needed shifts.now size.now }
{
    match size {
        RowSize::Jump { distance, .. } => jump_level(distance_value(shifts, distance)),
        RowSize::Leb128 { signed, distance } => leb128_level(
            *signed,
            distance_value(shifts, distance),
        ),
        RowSize::Advance { distance } => advance_level(distance_value(shifts, distance)),
        RowSize::Fixed(_) | RowSize::Align { .. } | RowSize::Org { .. } | RowSize::End => 0,
    }
}

/// The least level that holds the row's distance where the rows are moved so far.
#[tactic(auto, unfolding(crate::specs::Needs::needed))]
#[inline(always)]
pub(crate) fn needed(shifts: &RangeTable, row: &PackedRow) -> u8
    requires { NamesRows (length shifts.now) row.now.size }
    ensures { result ≡ spec.needed shifts.now row.now.size }
{
    if let Held::Jump {
        ahead,
        behind,
        number,
        ..
    } = &row.held
    {
        return jump_level(value_between(shifts, *number, *ahead, *behind));
    }
    match &row.held {
        Held::Leb128 {
            signed,
            ahead,
            behind,
            number,
            ..
        } => leb128_level(*signed, value_between(shifts, *number, *ahead, *behind)),
        Held::Advance {
            ahead,
            behind,
            number,
            ..
        } => advance_level(value_between(shifts, *number, *ahead, *behind)),
        Held::Jump { .. } | Held::Fixed { .. } | Held::Align { .. } | Held::End { .. } => 0,
        Held::Other(row) => needed_other(shifts, &row.size),
    }
}

/// The number of levels above the lowest, of a row in an allocation of its own.
#[tactic(auto, unfolding(crate::specs::Needs::top))]
#[inline(never)]
fn top_other(size: &RowSize) -> u8
    ensures { result ≡ spec.top size.now }
{
    match size {
        RowSize::Jump { .. } => 1,
        RowSize::Leb128 { .. } => 9,
        RowSize::Advance { .. } => 4,
        RowSize::Fixed(_) | RowSize::Align { .. } | RowSize::Org { .. } | RowSize::End => 0,
    }
}

/// The number of levels above the lowest.
#[tactic(auto, unfolding(crate::specs::Needs::top))]
#[inline(always)]
pub fn top(row: &PackedRow) -> u8
    ensures { result ≡ spec.top row.now.size }
{
    if let Held::Jump { .. } = &row.held {
        return 1;
    }
    match &row.held {
        Held::Jump { .. } => 1,
        Held::Leb128 { .. } => 9,
        Held::Advance { .. } => 4,
        Held::Fixed { .. } | Held::Align { .. } | Held::End { .. } => 0,
        Held::Other(row) => top_other(&row.size),
    }
}
