//! The row in force at an item.

ghost use Rattle.std.specs.Prelude.{◌≡◌, ◌<◌, ◌≤◌, ℕ, length};
ghost use Rattle.cfi_checks.specs.Rows.{AreInOrder, entry_row};
ghost use Rattle.cfi_checks.specs.Places.{AreBegun, from_at, last_of};

use crate::rows::{RowFrom, WrittenRow};
use cfi_rows::Rule;

/// The row at entry.
pub(crate) fn entry_row() -> WrittenRow
    ensures { result ≡ entry_row }
{
    WrittenRow {
        register: 7,
        offset: 8,
        rules: [Rule::Unspecified; 6],
        return_address: Rule::Offset(-8),
    }
}

/// How many rows begin at an item or before it, where the first ones are known to.
pub(crate) fn begun(rows: &[RowFrom], first: usize, item: usize) -> usize
    requires order { AreInOrder rows.now }
    requires within { first ≤ length rows.now }
    requires begun { (k : ℕ) → k < first → (from_at rows.now k).item ≤ item }
    ensures { AreBegun rows.now item result }
{
    for k in first..rows.len() {
        if rows[k].item > item {
            return k;
        }
    }
    rows.len()
}

/// The last of so many rows, or that at entry.
pub(crate) fn last_of<'a>(
    entry: &'a WrittenRow,
    rows: &'a [RowFrom],
    count: usize,
) -> &'a WrittenRow
    requires entry { entry.now ≡ entry_row }
    requires within { count ≤ length rows.now }
    ensures { result.now ≡ last_of rows.now count }
{
    if count == 0 {
        return entry;
    }
    &rows[count - 1].row
}
