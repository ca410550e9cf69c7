//! Whether rows can be planned.

ghost use Rattle.std.specs.Prelude.{◌≡◌, ◌+◌, ◌^◌, ◌≤◌, true, length};
ghost use Rattle.asm_levels.specs.Distances.{DistanceStands};
ghost use Rattle.asm_levels.specs.Sizes.{most_bytes};
ghost use Rattle.asm_levels.specs.Standing.{AlignStands, OrgStands, NamesRows};
ghost use Rattle.layer_rows.specs.Fitting.{RowFits, RowsFit};

use asm_levels::{Distance, PackedRow, RowSize};

/// The most bytes of one row, so that fewer than 2^28 of them have fewer than 2^62.
const MOST_BYTES: u64 = 1 << 29;

/// Whether a distance names rows among so many. No line makes a sum.
fn distance_fits(count: usize, distance: &Distance) -> bool
    ensures { result ≡ true → DistanceStands count distance.now }
{
    match distance {
        Distance::Between { ahead, behind, .. } => {
            (*ahead as usize) < count && (*behind as usize) < count
        }
        Distance::Sum { .. } => false,
    }
}

/// Whether an alignment is at most 2^29.
fn alignment_fits(log: u8) -> bool
    ensures log { result ≡ true → log ≤ 30 }
    ensures bytes { result ≡ true → 2 ^ log ≤ 2 ^ 29 }
{
    log <= 29 && (1u64 << log) <= MOST_BYTES
}

/// Whether a row of this index stands among so many, and is not too large.
#[tactic(auto, unfolding(asm_levels::specs::Sizes::most_bytes))]
fn size_fits(count: usize, index: usize, size: &RowSize) -> bool
    ensures align { result ≡ true → AlignStands size.now }
    ensures org { result ≡ true → OrgStands (index + 1) size.now }
    ensures names { result ≡ true → NamesRows count size.now }
    ensures bytes { result ≡ true → most_bytes size.now ≤ 2 ^ 29 }
{
    match size {
        RowSize::Fixed(bytes) => *bytes <= MOST_BYTES,
        RowSize::Align { log, .. } => alignment_fits(*log),
        RowSize::Org { from, ahead, .. } => (*from as usize) <= index && *ahead <= MOST_BYTES,
        RowSize::Jump { distance, .. } => distance_fits(count, distance),
        RowSize::Leb128 { distance, .. } => distance_fits(count, distance),
        RowSize::Advance { distance } => distance_fits(count, distance),
        RowSize::End => true,
    }
}

/// Whether the row of this index fits among so many.
fn row_fits(count: usize, index: usize, row: &PackedRow) -> bool
    ensures { result ≡ true → RowFits count index row.now }
{
    match row.row() {
        Some(row) => row.offset <= 1 << 33 && size_fits(count, index, &row.size),
        None => false,
    }
}

/// Whether a plan of the rows can be made.
pub fn all_fit(rows: &[PackedRow]) -> bool
    ensures { result ≡ true → RowsFit rows.now }
{
    for (index, row) in rows.iter().enumerate() {
        if !row_fits(rows.len(), index, row) {
            return false;
        }
    }
    rows.len() < 1 << 28
}
