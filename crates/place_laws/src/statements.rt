//! Where statements are.

ghost use Rattle.place_laws.specs.Alignments.{AlignmentsStand, RunsMoveNothing};
ghost use Rattle.place_laws.specs.Statements.{GrowthMovesPlaces, PlacesAreInside, SpotsGivePlaces, StatementsStand};

use crate::ends::{ends_are_sizes, layouts_keep_items};
use asm_place::{encoding_stands, instruction_stands, jumps_are_put, placing_grows};
use asm_relax::layouts_keep_sections;

/// Each statement moves the place of what is put next into its section by what it puts, and an
/// instruction no place of another section. So it is in any layout of sections that grow from
/// there.
pub fn statements_stand()
    ensures { StatementsStand }
{
    layouts_keep_items();
    placing_grows();
    instruction_stands();
    encoding_stands();
    jumps_are_put();
}

/// An alignment moves the place by the size of its item.
pub fn alignments_stand()
    ensures { AlignmentsStand }
{}

/// The run that is put before plain bytes moves nothing.
pub fn runs_move_nothing()
    ensures { RunsMoveNothing }
{}

/// Where the spot of a section is the same, so is the place of what is put next.
pub fn spots_give_places()
    ensures { SpotsGivePlaces }
{}

/// Wherever sections grow, the place of what is put next into each of them moves by what is put.
pub fn growth_moves_places()
    ensures { GrowthMovesPlaces }
{}

/// The place of what is put next into a section is at most the size of its section in a layout of
/// later sections, which is at most 2^30.
pub fn places_are_inside()
    ensures { PlacesAreInside }
{
    ends_are_sizes();
    layouts_keep_sections();
}
