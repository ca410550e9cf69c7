//! Whole functions.

ghost use Rattle.code_laws.specs.Functions.{EndsArePlaces, FunctionsAreLaid, ItemsArePlaced};

use crate::statements::statements_are_laid;
use asm_functions::following_is_placing;
use asm_place::{
    labels_change_symbols, places_stand, placing_grows, placing_within, statements_split,
};

/// The statement that puts an item is placed behind its labels, between sections within whose bytes
/// all stands, and which grow to all that is placed.
pub fn items_are_placed()
    ensures { ItemsArePlaced }
{
    placing_grows();
    placing_within();
    places_stand();
    following_is_placing();
    labels_change_symbols();
    statements_split();
}

/// What is put next into a section has the place where the section ends.
pub fn ends_are_places()
    ensures { EndsArePlaces }
{}

/// A function lies in the bytes of its section as it is loaded, if its direct jumps do.
pub fn functions_are_laid()
    ensures { FunctionsAreLaid }
{
    statements_are_laid();
    items_are_placed();
    ends_are_places();
}
