//! Advances by distances that are known before layout (DWARF 5, section 6.4.2.1).

ghost use Rattle.std.specs.Prelude.{◌≡◌, ◌≤◌};
ghost use Rattle.item_bytes.specs.Levels.{advance_level as level_of};
ghost use Rattle.eh_frame.specs.Entries as spec;

use arrayvec::ArrayVec;
use item_bytes::advance;

/// The least level of an advance that holds the distance.
#[tactic(auto, unfolding(item_bytes::specs::Levels::advance_level))]
fn advance_level(distance: u64) -> u8
    ensures level { result ≡ level_of distance }
    ensures within { result ≤ 4 }
{
    if distance < 1 {
        0
    } else if distance < 1 << 6 {
        1
    } else if distance < 1 << 8 {
        2
    } else if distance < 1 << 16 {
        3
    } else {
        4
    }
}

/// The bytes of the advance by a distance that is known.
pub(crate) fn known_advance(distance: u64) -> ArrayVec<u8, 5>
    ensures { result.items ≡ spec.known_advance distance }
{
    advance(advance_level(distance), distance)
}
