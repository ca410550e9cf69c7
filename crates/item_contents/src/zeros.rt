//! Items that are known to be zeros: all that a section of type `SHT_NOBITS` takes.

ghost use Rattle.std.specs.Prelude.{◌≡◌, ◌==◌, ◌||◌, true, false};
ghost use Rattle.std.specs.List.{list_all};
ghost use Rattle.item_contents.specs.Zeros.{is_zero};
ghost use Rattle.item_contents.specs.Contents as spec;

use crate::contents::{Align, Content, Fill, Growing, Org};
use crate::kinds::Padding;
use crate::visiting::FragVisit;
use crate::walking::visit;

/// Whether all bytes are 0.
pub fn are_zeros(bytes: &[u8]) -> bool
    ensures { result ≡ list_all is_zero bytes.now }
{
    bytes.iter().all(|byte| *byte == 0)
}

/// Tells whether an item is known to be zeros.
#[derive(Clone, Copy, Debug)]
pub struct KnownZeros;

impl FragVisit for KnownZeros {
    type Out = bool;

    ghost run_gives = { λ before answer after. answer ≡ true };

    ghost fill_gives = { λ before held answer after.
        answer ≡ ((held.count == 0) || list_all is_zero (spec.unit_of held)) };

    ghost align_gives = { λ before held answer after. answer ≡ spec.pads_zeros held.padding };

    ghost org_gives = { λ before held answer after. answer ≡ is_zero held.fill };

    ghost growing_gives = { λ before held answer after. answer ≡ false };

    fn run(&mut self) -> bool {
        true
    }

    fn fill(&mut self, held: &Fill) -> bool {
        let unit = held.unit();
        held.count() == 0 || are_zeros(&unit[..held.size() as usize])
    }

    fn align(&mut self, held: &Align) -> bool {
        match held.padding() {
            Padding::Byte(fill) => fill == 0,
            Padding::NoOperations => false,
        }
    }

    fn org(&mut self, held: &Org) -> bool {
        held.fill() == 0
    }

    fn growing(&mut self, _held: Growing) -> bool {
        false
    }
}

/// Whether the item is known to be zeros: each byte is 0, whatever its size and value.
pub fn is_known_zeros(content: &Content) -> bool
    ensures { result ≡ spec.is_known_zeros content.now }
{
    let mut visitor = KnownZeros;
    visit(content, &mut visitor)
}
