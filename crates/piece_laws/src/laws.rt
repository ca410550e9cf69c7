//! What holds of the pieces of every table in an object file.

ghost use Rattle.piece_laws.specs.LaidTables.{PlacesRise};
ghost use Rattle.piece_laws.specs.PiecesInFile.{TablesAreInFile};

use crate::distances::distances_are_held;
use asm_relax::{layouts_keep_sections, settled_items_have_room, sizes_add_up};
use elf_object::{
    bytes_stand, fields_have_one_relocation, items_stand, relocations_mean_forms, values_stand,
};
use item_contents::bytes_are_sized;
use table_pieces::{distances_have_two_terms, places_are_named};

/// A place behind which no fewer items and bytes stand than behind another does not stand before that in any layout, and where
/// as many items stand before both, they are as far apart as their plain bytes; where no section is too large, no place stands
/// behind 2^30.
pub fn places_rise()
    ensures { PlacesRise }
{
    layouts_keep_sections();
}

/// Pieces that are put into a section stand in the file of its layout one behind the other, each as it is meant there: a
/// distance leads from its one mark to the other, an advance or a number in groups of 7 bits has as many bytes as hold it, and
/// an address is 0. The ends that are counted over them are where they end. The field of a pointer counts from itself to its
/// place, and has one relocation where that is in another section; that of an address has one that names its place; and in an
/// object that of a form holds its value and has none, or has just one, which calculates the form (psABI for AMD64, section
/// 4.4).
pub fn tables_are_in_file()
    ensures { TablesAreInFile }
{
    layouts_keep_sections();
    settled_items_have_room();
    sizes_add_up();
    bytes_stand();
    values_stand();
    items_stand();
    fields_have_one_relocation();
    relocations_mean_forms();
    places_are_named();
    distances_have_two_terms();
    distances_are_held();
    bytes_are_sized();
}
