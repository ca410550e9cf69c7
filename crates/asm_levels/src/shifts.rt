//! The sizes of rows, and how far these move the rows behind them.

ghost use Rattle.std.specs.Prelude.{◌≡◌, ◌+◌, ◌^◌, ◌<◌, ◌≤◌, All, length};
ghost use Rattle.item_bytes.specs.Levels.{jump_size, advance_size};
ghost use Rattle.asm_levels.specs.Sizes as spec;
ghost use Rattle.asm_levels.specs.Shifts as shift_spec;
ghost use Rattle.asm_levels.specs.Standing.{AlignStands, OrgStands, AllStand};

use crate::ends::is_end;
use crate::packing::{Held, PackedRow};
use crate::rows::RowSize;
use range_table::RangeTable;

/// The number of bytes from an address up to the next multiple of 2^log, or 0 where that is more than the most.
#[inline(never)]
fn padding_within(log: u8, most: u64, address: u64) -> u64
    requires { log ≤ 30 }
    ensures size { result ≡ spec.unless_above most (spec.padding (2 ^ log) address) }
    ensures within { result ≤ 2 ^ 30 }
{
    let alignment = 1u64 << log;
    let bytes = (alignment - address % alignment) % alignment;
    if bytes <= most { bytes } else { 0 }
}

#[inline(always)]
fn jump_bytes(conditional: bool, level: u8) -> u64
    ensures size { result ≡ jump_size conditional level }
    ensures within { result ≤ 6 }
{
    if level == 0 {
        2
    } else if conditional {
        6
    } else {
        5
    }
}

#[inline(always)]
fn advance_bytes(level: u8) -> u64
    ensures size { result ≡ advance_size level }
    ensures within { result ≤ 5 }
{
    if level < 4 {
        u64::from(level)
    } else if level == 4 {
        5
    } else {
        0
    }
}

/// How far the row is moved that an `.org` counts from, which is in an allocation of its own.
#[inline(never)]
fn start_of_other(shifts: &RangeTable, size: &RowSize) -> u64
    requires { OrgStands (length shifts.now) size.now }
    ensures { result ≡ spec.start_of shifts.now size.now }
{
    match size {
        RowSize::Org { from, .. } => shifts.get(*from as usize),
        RowSize::Fixed(_)
        | RowSize::Align { .. }
        | RowSize::Jump { .. }
        | RowSize::Leb128 { .. }
        | RowSize::Advance { .. }
        | RowSize::End => 0,
    }
}

/// How far the row is moved that an `.org` counts from, and 0 for other rows.
#[inline(always)]
fn start_of(shifts: &RangeTable, row: &PackedRow) -> u64
    requires { OrgStands (length shifts.now) row.now.size }
    ensures { result ≡ spec.start_of shifts.now row.now.size }
{
    match &row.held {
        Held::Other(row) => start_of_other(shifts, &row.size),
        Held::Fixed { .. }
        | Held::Align { .. }
        | Held::Jump { .. }
        | Held::Leb128 { .. }
        | Held::Advance { .. }
        | Held::End { .. } => 0,
    }
}

/// The size in bytes of a row in an allocation of its own.
#[tactic(auto, unfolding(crate::specs::Sizes::most_bytes))]
#[inline(never)]
fn size_of_other(start: u64, size: &RowSize, level: u8, address: u64) -> u64
    requires align { AlignStands size.now }
    requires start { start < 2 ^ 62 }
    requires level { level ≤ 9 }
    requires most { spec.most_bytes size.now < 2 ^ 62 }
    ensures size { result ≡ spec.size_from start size.now level address }
    ensures within { result < 2 ^ 63 }
{
    match *size {
        RowSize::Fixed(bytes) => bytes,
        RowSize::Align { log, most } => padding_within(log, most, address),
        RowSize::Org { ahead, behind, .. } => (start + ahead)
            .saturating_sub(address)
            .saturating_sub(behind),
        RowSize::Jump { conditional, .. } => jump_bytes(conditional, level),
        RowSize::Leb128 { .. } => u64::from(level) + 1,
        RowSize::Advance { .. } => advance_bytes(level),
        RowSize::End => 0,
    }
}

/// The size in bytes of a row of this level at this address, where the row that an `.org` counts from is moved so far.
#[tactic(auto, unfolding(crate::specs::Sizes::most_bytes))]
#[inline(always)]
pub fn size_from(start: u64, row: &PackedRow, level: u8, address: u64) -> u64
    requires align { AlignStands row.now.size }
    requires start { start < 2 ^ 62 }
    requires level { level ≤ 9 }
    requires most { spec.most_bytes row.now.size < 2 ^ 62 }
    ensures size { result ≡ spec.size_from start row.now.size level address }
    ensures within { result < 2 ^ 63 }
{
    match &row.held {
        Held::Fixed { bytes, .. } => *bytes,
        Held::Align { log, most, .. } => padding_within(*log, *most, address),
        Held::Jump { conditional, .. } => jump_bytes(*conditional, level),
        Held::Leb128 { .. } => u64::from(level) + 1,
        Held::Advance { .. } => advance_bytes(level),
        Held::End { .. } => 0,
        Held::Other(row) => size_of_other(start, &row.size, level, address),
    }
}

/// How many plain bytes of its section stand before the row.
#[inline(always)]
fn offset_of(row: &PackedRow) -> u64
    ensures { result ≡ row.now.offset }
{
    match &row.held {
        Held::Fixed { offset, .. } => u64::from(*offset),
        Held::Align { offset, .. } => u64::from(*offset),
        Held::Jump { offset, .. } => u64::from(*offset),
        Held::Leb128 { offset, .. } => u64::from(*offset),
        Held::Advance { offset, .. } => u64::from(*offset),
        Held::End { offset } => u64::from(*offset),
        Held::Other(row) => row.offset,
    }
}

/// The size in bytes of a row of this level that is moved so far, by the shifts of the rows up to it.
#[tactic(auto, unfolding(crate::specs::Sizes::size_at))]
#[inline(always)]
pub fn size_at(shifts: &RangeTable, row: &PackedRow, level: u8, shift: u64) -> u64
    requires align { AlignStands row.now.size }
    requires org { OrgStands (length shifts.now) row.now.size }
    requires start { spec.start_of shifts.now row.now.size < 2 ^ 62 }
    requires offset { row.now.offset ≤ 2 ^ 33 }
    requires level { level ≤ 9 }
    requires most { spec.most_bytes row.now.size < 2 ^ 62 }
    requires shift { shift < 2 ^ 62 }
    ensures size { result ≡ spec.size_at shifts.now row.now.size level (row.now.offset + shift) }
    ensures within { result < 2 ^ 63 }
{
    let start = start_of(shifts, row);
    size_from(start, row, level, offset_of(row) + shift)
}

/// How far the row behind this one is moved, which has this level and is moved so far itself.
#[tactic(auto, unfolding(crate::specs::Shifts::shift_behind, crate::specs::Sizes::size_at))]
#[inline(always)]
pub fn shift_behind(shifts: &RangeTable, row: &PackedRow, level: u8, shift: u64) -> u64
    requires align { AlignStands row.now.size }
    requires org { OrgStands (length shifts.now) row.now.size }
    requires start { spec.start_of shifts.now row.now.size < 2 ^ 62 }
    requires offset { row.now.offset ≤ 2 ^ 33 }
    requires level { level ≤ 9 }
    requires most { spec.most_bytes row.now.size < 2 ^ 62 }
    requires shift { shift < 2 ^ 62 }
    ensures { result ≡ shift_spec.shift_behind shifts.now row.now level shift }
{
    if let Held::Jump { conditional, .. } = &row.held {
        return shift + jump_bytes(*conditional, level);
    }
    if is_end(row) {
        0
    } else {
        shift + size_at(shifts, row, level, shift)
    }
}
