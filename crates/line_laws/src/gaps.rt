//! What holds of the items of a line table.

ghost use Rattle.std.specs.Prelude.{◌+◌, ◌^◌, ◌<◌, ◌≤◌, ℕ, false};
ghost use Rattle.item_bytes.specs.Leb128.{leb128_bytes};
ghost use Rattle.item_bytes.specs.Levels.{leb128_level};
ghost use Rattle.line_rows.specs.Writing.{IsWritten};

use item_bytes::groups_hold_their_number;
use leb128::numbers_read_back;

/// An item that has room for a distance has bytes that are read as the distance, whatever level the layout gave it.
pub fn gaps_are_written()
    ensures { (level distance : ℕ) → distance < 2 ^ 64 → level ≤ 9 → leb128_level false distance ≤ level
        → IsWritten (record { distance = distance; digits = leb128_bytes false distance (level + 1) }) }
{
    groups_hold_their_number();
    numbers_read_back();
}
