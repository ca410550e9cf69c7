//! Rows placed where their levels move them.

ghost use Rattle.std.specs.Prelude.{◌≡◌, ◌^◌, ◌<◌, ◌≤◌, All, length};
ghost use Rattle.asm_levels.specs.Sizes.{most_in};
ghost use Rattle.asm_levels.specs.Shifts.{shifts_of};
ghost use Rattle.asm_levels.specs.Standing.{AllStand};

use asm_levels::{PackedRow, shift_behind};
use range_table::RangeTable;

/// Places all rows where these levels move them.
pub(crate) fn place(rows: &[PackedRow], levels: &[u8], shifts: &mut RangeTable)
    requires stand { AllStand rows.now }
    requires bytes { most_in rows.now < 2 ^ 62 }
    requires levels { All (λ level. level ≤ 9) levels.now }
    requires as_many_levels { length levels.now ≡ length rows.now }
    requires as_many_shifts { length shifts.old ≡ length rows.now }
    ensures { shifts.new ≡ shifts_of rows.now levels.now }
{
    let mut shift = 0u64;
    for (index, row) in rows.iter().enumerate() {
        shifts.set(index, shift);
        shift = shift_behind(shifts, row, levels[index], shift);
    }
}
