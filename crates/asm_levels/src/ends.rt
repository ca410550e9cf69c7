//! For each row the index behind the last one that its size moves, and the rows whose size depends on their address.

ghost use Rattle.std.specs.Prelude.{◌≡◌, ◌<◌, ◌≤◌, ◌^◌, ℕ, IfOk, length, slice_index};
ghost use Rattle.asm_levels.specs.RowLists as spec;

use crate::packing::{Held, PackedRow};
use crate::rows::RowSize;
use asm_base::NoMemory;
use std::alloc::Global;

/// Rows, and for each the index behind the last row that its size moves.
#[derive(Clone, Copy)]
pub struct EndedRows<'a> {
    pub rows: &'a [PackedRow],
    pub ends: &'a [u32],
}

/// Whether the row is an end mark.
#[inline(always)]
pub(crate) fn is_end(row: &PackedRow) -> bool
    ensures { result ≡ spec.is_end row.now.size }
{
    match &row.held {
        Held::End { .. } => true,
        Held::Other(row) => matches!(row.size, RowSize::End),
        Held::Fixed { .. }
        | Held::Align { .. }
        | Held::Jump { .. }
        | Held::Leb128 { .. }
        | Held::Advance { .. } => false,
    }
}

/// Whether the size of the row depends on its address.
fn depends_on_address(row: &PackedRow) -> bool
    ensures { result ≡ spec.depends_on_address row.now.size }
{
    match &row.held {
        Held::Align { .. } => true,
        Held::Other(row) => matches!(row.size, RowSize::Align { .. } | RowSize::Org { .. }),
        Held::Fixed { .. }
        | Held::Jump { .. }
        | Held::Leb128 { .. }
        | Held::Advance { .. }
        | Held::End { .. } => false,
    }
}

/// The index behind the last row that the size of the one at this index moves, where those of the rows behind it are there.
fn end_at(rows: &[PackedRow], ends: &[u32], index: usize) -> u32
    requires inside { index < length rows.now }
    requires few { length rows.now < 2 ^ 32 }
    requires as_many { length ends.now ≡ length rows.now }
    requires behind { (at : ℕ) → index < at → at < length rows.now
        → spec.IsMovedBefore rows.now at (slice_index ends.now at) }
    ensures { spec.IsMovedBefore rows.now index result }
{
    let next = index + 1;
    if next == rows.len() || is_end(&rows[index]) {
        next as u32
    } else {
        ends[next]
    }
}

/// For each row the index behind the last one that its size moves.
pub fn ends_of(alloc: Global, rows: &[PackedRow]) -> Result<Vec<u32>, NoMemory>
    requires { length rows.now < 2 ^ 32 }
    ensures { IfOk result (λ ends. spec.AreEnds rows.now ends.items) }
{
    let mut ends = vec![in alloc; 0u32; rows.len()]?;
    let mut left = rows.len();
    while left > 0 {
        left -= 1;
        ends[left] = end_at(rows, &ends, left);
    }
    Ok(ends)
}

/// The rows whose size depends on their address, in order.
pub fn dependents_of(alloc: Global, rows: &[PackedRow]) -> Result<Vec<u32>, NoMemory>
    requires { length rows.now < 2 ^ 32 }
    ensures { IfOk result (λ list. spec.AreDependents rows.now list.items) }
{
    let mut list = Vec::new(alloc);
    for (index, row) in rows.iter().enumerate() {
        if depends_on_address(row) {
            list.push(index as u32)?;
        }
    }
    Ok(list)
}
