//! Items of one possible size.

ghost use Rattle.std.specs.Prelude.{◌≡◌, ◌*◌, ◌≤◌, ◌^◌, Some, None, IfSome};
ghost use Rattle.item_contents.specs.FixedSizes as spec;

use crate::contents::{Align, Content, Fill, Growing, Org};
use crate::visiting::FragVisit;
use crate::walking::visit;

/// Tells the size of an item where it has one possible size.
#[derive(Clone, Copy, Debug)]
pub struct FixedSize;

impl FragVisit for FixedSize {
    type Out = Option<u64>;

    ghost run_gives = { λ before answer after. spec.IsFixedSize (Some 0) answer };

    ghost fill_gives = { λ before held answer after.
        spec.IsFixedSize (Some (held.count * held.size)) answer };

    ghost align_gives = { λ before held answer after. spec.IsFixedSize None answer };

    ghost org_gives = { λ before held answer after. spec.IsFixedSize None answer };

    ghost growing_gives = { λ before held answer after. spec.IsFixedSize None answer };

    fn run(&mut self) -> Option<u64> {
        Some(0)
    }

    fn fill(&mut self, held: &Fill) -> Option<u64> {
        Some(held.count() * held.size())
    }

    fn align(&mut self, _held: &Align) -> Option<u64> {
        None
    }

    fn org(&mut self, _held: &Org) -> Option<u64> {
        None
    }

    fn growing(&mut self, _held: Growing) -> Option<u64> {
        None
    }
}

/// The size of the item in bytes, where it has one possible size.
pub fn fixed_size(content: &Content) -> Option<u64>
    ensures size { result ≡ spec.fixed_size_of content.now }
    ensures within { IfSome result (λ size. size ≤ 2 ^ 33) }
{
    let mut visitor = FixedSize;
    visit(content, &mut visitor)
}
