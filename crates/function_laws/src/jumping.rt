//! The direct jumps of functions.

ghost use Rattle.function_laws.specs.Jumping.{FunctionJumpsAreLaid};

use crate::addresses::starts_are_addresses;
use asm_functions::following_is_placing;
use asm_place::{encoding_stands, jumps_are_put, places_stand};
use code_laws::{
    encodings_are_read_loaded, encodings_are_seen, ends_are_places, items_are_placed,
    jumps_are_written,
};
use flow_graph::added_labels_change_no_target;
use form_laws::{forms_name_symbols, held_forms_name_symbols, values_name_symbols};
use place_laws::statements_stand;
use target_laws::{
    branches_are_read, branches_are_said, branches_have_targets, jumps_are_read, jumps_are_seen,
    jumps_have_room,
};

/// The direct jumps of a function, branches of the loop group among them, are laid as its items:
/// whatever is read where they are loaded does what the items may do.
pub fn function_jumps_are_laid()
    ensures { FunctionJumpsAreLaid }
{
    starts_are_addresses();
    following_is_placing();
    places_stand();
    jumps_are_put();
    encoding_stands();
    items_are_placed();
    ends_are_places();
    jumps_are_written();
    encodings_are_seen();
    encodings_are_read_loaded();
    statements_stand();
    branches_have_targets();
    jumps_are_seen();
    jumps_are_read();
    branches_are_read();
    jumps_have_room();
    branches_are_said();
    forms_name_symbols();
    values_name_symbols();
    held_forms_name_symbols();
    added_labels_change_no_target();
}
