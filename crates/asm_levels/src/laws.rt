//! What the definitions of levels and shifts come to.

ghost use Rattle.std.specs.Prelude.{◌≡◌, ◌↔◌, ◌+◌, ◌-◌, ◌*◌, ◌%◌, ◌^◌, ◌<◌, ◌≤◌, ℕ, List, All, length, slice_index};
ghost use Rattle.level_ranks.specs.Rounds.{NeedsWithin};
ghost use Rattle.asm_levels.specs.declared.rows.Row.{Row as TheRow};
ghost use Rattle.asm_levels.specs.Sizes.{padding, most_bytes, most_in};
ghost use Rattle.asm_levels.specs.Needs.{levels_needed, need, tops};

/// The padding is the least number that takes an address to a multiple of the alignment.
pub fn padding_is_least()
    ensures multiple { (alignment address : ℕ) → 0 < alignment
        → (address + padding alignment address) % alignment ≡ 0 }
    ensures least { (alignment address more : ℕ) → 0 < alignment
        → (address + more) % alignment ≡ 0 → padding alignment address ≤ more }
{}

/// No row needs a level above its top.
pub fn needs_stay_within_tops()
    ensures { (rows : List TheRow) → NeedsWithin (need rows) (tops rows) }
{}

/// Nor does it need one wherever rows are moved.
pub fn needs_stay_within_tops_everywhere()
    ensures { (shifts : List ℕ) (rows : List TheRow) (index : ℕ)
        → slice_index (levels_needed shifts rows) index ≤ slice_index (tops rows) index }
{}

/// Fewer than 2^28 rows, each of at most 2^34 bytes, have fewer than 2^62 bytes.
pub fn few_rows_have_few_bytes()
    ensures { (rows : List TheRow) → All (λ row. most_bytes row.size ≤ 2 ^ 34) rows
        → length rows < 2 ^ 28 → most_in rows < 2 ^ 62 }
{}
