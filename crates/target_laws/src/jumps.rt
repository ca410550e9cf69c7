//! Direct jumps of functions where they are loaded.

ghost use Rattle.target_laws.specs.Jumps.{JumpsAreRead, JumpsAreSeen, JumpsGo, LoadedJumpsStand};

use crate::labels::targets_are_items;
use asm_relax::layouts_keep_sections;
use elf_object::{items_stand, places_are_addresses};
use item_bytes::jump_reads_back;
use item_readings::items_are_read;
use jump_laws::conditions_are_numbered;
use loaded_laws::{layouts_keep_counts, relocations_beside, values_are_alone};
use place_laws::{ends_move, jumps_lead, layouts_are_low, places_are_inside};
use step_readings::jumps_obey;

/// The bytes of a direct jump are loaded at its place in the layout: over the distance that its
/// field holds, or, where that has no value, over any.
pub fn loaded_jumps_stand()
    ensures { LoadedJumpsStand }
{
    layouts_keep_sections();
    layouts_keep_counts();
    places_are_addresses();
    places_are_inside();
    relocations_beside();
    values_are_alone();
    ends_move();
    items_stand();
    jumps_obey();
    jump_reads_back();
}

/// With any values, an instruction that is a direct jump is that of its condition, and control goes
/// from it so.
#[tactic(auto, using(crate::proofs::Fitting::jump_goes))]
pub fn jumps_are_seen()
    ensures seen { JumpsAreSeen }
    ensures goes { JumpsGo }
{
    conditions_are_numbered();
}

/// What is read where a direct jump of a function is loaded does what its item may do.
pub fn jumps_are_read()
    ensures { JumpsAreRead }
{
    loaded_jumps_stand();
    targets_are_items();
    jumps_lead();
    layouts_are_low();
    items_are_read();
}
