//! Values by their numbers, with none under some.

ghost use Rattle.std.specs.Prelude.{◌≡◌, ◌≤◌, OnOk, length};
ghost use Rattle.line_directives.specs.Numbered as spec;

use std::alloc::AllocError;

/// Makes room for the numbers below `count`.
#[tactic(auto, using(crate::proofs::RoomLemmas::one_more, crate::proofs::RoomLemmas::room_is_there))]
pub(crate) fn make_room<T: Drop>(
    values: &mut Vec<Option<T>>,
    count: usize,
) -> Result<(), AllocError>
    ensures values { OnOk result (values.new.items ≡ spec.with_room count values.old.items) }
    ensures room { OnOk result (count ≤ length values.new.items) }
{
    for _index in values.len()..count {
        values.push(None)?;
    }
    Ok(())
}
