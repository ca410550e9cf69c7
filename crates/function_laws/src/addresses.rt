//! The addresses of items.

ghost use Rattle.function_laws.specs.Addresses.{StartsAreAddresses};

use asm_functions::{following_is_placing, items_are_joined};
use asm_place::{labels_change_symbols, places_stand, placing_grows};
use place_laws::{layouts_are_low, places_are_inside, spots_are_addresses};

/// Each item of a function begins at the address that its place has in the layout.
pub fn starts_are_addresses()
    ensures { StartsAreAddresses }
{
    items_are_joined();
    following_is_placing();
    placing_grows();
    places_stand();
    labels_change_symbols();
    places_are_inside();
    spots_are_addresses();
    layouts_are_low();
}
