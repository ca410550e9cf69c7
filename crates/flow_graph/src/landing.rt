//! The items that begin at a place.

ghost use Rattle.std.specs.Prelude.{◌≡◌, ◌<◌, length, IfSome};
ghost use Rattle.code_functions.specs.InOrder.{is_up_to, AreInOrder};
ghost use Rattle.flow_graph.specs.Targets.{same_place, item_at, IsCountUpTo};

use asm_base::Place;
use code_functions::CodeItem;

/// Whether the place is the other one, or stands before it.
#[inline(always)]
fn is_up_to(one: Place, other: Place) -> bool
    ensures { result ≡ is_up_to one other }
{
    one.item < other.item || (one.item == other.item && one.offset <= other.offset)
}

/// Whether a place is another one.
#[inline(always)]
fn same_place(one: Place, other: Place) -> bool
    ensures { result ≡ same_place one other }
{
    one.item == other.item && one.offset == other.offset
}

/// How many of the items begin at the place or before it.
fn count_up_to(items: &[CodeItem], place: Place) -> usize
    requires { AreInOrder items.now }
    ensures { IsCountUpTo items.now place result }
{
    items.partition_point(|item| is_up_to(item.place, place))
}

/// The last item that begins at the place.
pub(crate) fn item_at(items: &[CodeItem], place: Place) -> Option<usize>
    requires { AreInOrder items.now }
    ensures item { result ≡ item_at items.now place }
    ensures within { IfSome result (λ item. item < length items.now) }
{
    let count = count_up_to(items, place);
    if count == 0 {
        return None;
    }
    let last = &items[count - 1];
    if same_place(last.place, place) {
        Some(count - 1)
    } else {
        None
    }
}
