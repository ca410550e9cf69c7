//! Advances of a frame table.

ghost use Rattle.std.specs.Prelude.{◌≡◌, ◌<◌, ◌≤◌, ◌^◌, ◌++◌, ℕ, List, All, Some, length};
ghost use Rattle.item_bytes.specs.Levels.{advance_size};
ghost use Rattle.item_bytes.specs.Levels.{AdvanceHolds};
ghost use Rattle.item_bytes.specs.Advances as spec;

use crate::low_bytes::{low_byte, push_four, push_two};
use arrayvec::ArrayVec;

/// An advance: none, `DW_CFA_advance_loc` with the distance in it, or one of the instructions behind which it stands in
/// 1, 2 and 4 bytes (DWARF 5, section 6.4.2.1).
#[tactic(auto, unfolding(crate::specs::Advances::advance_bytes))]
pub fn advance(level: u8, distance: u64) -> ArrayVec<u8, 5>
    requires { level ≤ 4 }
    ensures { result.items ≡ spec.advance_bytes level distance }
{
    let mut bytes = ArrayVec::new();
    match level {
        0 => {}
        1 => bytes.push(0x40 + (distance % (1 << 6)) as u8),
        2 => {
            bytes.push(0x02);
            bytes.push(low_byte(distance));
        }
        3 => {
            bytes.push(0x03);
            push_two(&mut bytes, distance);
        }
        _ => {
            bytes.push(0x04);
            push_four(&mut bytes, distance);
        }
    }
    bytes
}

/// What is read from an advance that holds its distance is the distance, and what stands behind it. An advance has the
/// size of its level.
#[tactic(auto, unfolding(crate::specs::Advances::advance_bytes, crate::specs::Advances::read_advance))]
pub fn advance_reads_back()
    ensures reads { (level distance : ℕ) (rest : List ℕ) → 0 < level → level ≤ 4
        → AdvanceHolds level distance
        → spec.read_advance (spec.advance_bytes level distance ++ rest) ≡ Some (distance, rest) }
    ensures size { (level distance : ℕ) → level ≤ 4
        → length (spec.advance_bytes level distance) ≡ advance_size level }
    ensures bytes { (level distance : ℕ)
        → All (λ byte. byte < 2 ^ 8) (spec.advance_bytes level distance) }
{}
