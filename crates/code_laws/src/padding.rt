//! Alignments and data.

ghost use Rattle.code_laws.specs.Padding.{AlignmentsAreLaid, DataAreLaid};

use asm_relax::layouts_keep_sections;
use elf_object::{items_stand, places_are_addresses};
use item_contents::bytes_are_sized;
use item_readings::no_operations_do_nothing;
use loaded_laws::{layouts_keep_counts, relocations_beside};
use place_laws::{ends_move, growth_moves_places, places_are_inside};

/// An alignment that fills with no-operations is laid as padding: what is read where it is loaded
/// does nothing that is followed.
pub fn alignments_are_laid()
    ensures { AlignmentsAreLaid }
{
    layouts_keep_sections();
    ends_move();
    places_are_inside();
    layouts_keep_counts();
    relocations_beside();
    places_are_addresses();
    items_stand();
    bytes_are_sized();
    no_operations_do_nothing();
}

/// Whatever is put into a section is laid as data, where the item is data.
pub fn data_are_laid()
    ensures { DataAreLaid }
{
    growth_moves_places();
}
