//! What the shifts of rows are.

ghost use Rattle.std.specs.Prelude.{◌≡◌, ℕ, List};
ghost use Rattle.asm_levels.specs.declared.rows.Row.{Row as TheRow};
ghost use Rattle.asm_levels.specs.Shifts.{shifts_of, AreInRow};
ghost use Rattle.asm_levels.specs.Standing.{AllStand};

/// The rows of a section stand one behind the other, from shift 0 on, and no other shifts do so.
pub fn rows_stand_in_row()
    ensures stand { (rows : List TheRow) (levels : List ℕ) → AllStand rows
        → AreInRow rows levels (shifts_of rows levels) }
    ensures only { (rows : List TheRow) (levels shifts : List ℕ) → AllStand rows
        → AreInRow rows levels shifts → shifts ≡ shifts_of rows levels }
{}
