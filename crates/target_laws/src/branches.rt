//! Branches of the loop group where they are loaded.

ghost use Rattle.target_laws.specs.Branches.{BranchesAreRead, BranchesHaveTargets, TargetsAreAlone};

use crate::labels::targets_are_items;
use asm_relax::{layouts_keep_sections, values_are_in_range};
use elf_object::{places_are_addresses, values_stand};
use item_readings::items_are_read;
use loaded_laws::{fields_stand_beside, layouts_keep_counts, relocations_beside, values_are_alone};
use place_laws::{branches_lead, layouts_keep_items, runs_move_nothing};
use step_readings::loaded_bytes_obey;
use x86_encode::{encodings_are_codes, fields_stand_apart};

/// An instruction from which control goes by a direct jump has a target first. Where it is written
/// and has an encoding, that is its one operand, and the encoding has one field, with the distance
/// to it.
pub fn branches_have_targets()
    ensures first { BranchesHaveTargets }
    ensures alone { TargetsAreAlone }
{
    encodings_are_codes();
    fields_stand_apart();
}

/// What is read where a branch of a function is loaded that has its distance in a field over its
/// bytes, as those of the loop group have, does what its item may do.
pub fn branches_are_read()
    ensures { BranchesAreRead }
{
    targets_are_items();
    layouts_keep_sections();
    layouts_keep_counts();
    layouts_keep_items();
    runs_move_nothing();
    values_are_in_range();
    places_are_addresses();
    values_stand();
    fields_stand_beside();
    relocations_beside();
    values_are_alone();
    branches_lead();
    branches_have_targets();
    fields_stand_apart();
    loaded_bytes_obey();
    items_are_read();
}
