//! Instructions with operands or a prefix.

ghost use Rattle.code_laws.specs.Codes.{EncodingsAreLaid, EncodingsAreReadLoaded, LoadedCodesStand};

use asm_place::encoding_stands;
use asm_relax::layouts_keep_sections;
use elf_object::bytes_stand;
use item_readings::items_are_read;
use loaded_laws::bytes_stand_beside;
use place_laws::{layouts_keep_items, places_are_inside, runs_move_nothing};
use scfi_laws::nodes_suit_items;
use section_laws::puts_stay_within;
use step_readings::loaded_bytes_obey;
use x86_encode::fields_stand_apart;

/// What is put as an instruction stands in its section as it is loaded, but for the bytes of its
/// fields.
pub fn loaded_codes_stand()
    ensures { LoadedCodesStand }
{
    layouts_keep_sections();
    layouts_keep_items();
    runs_move_nothing();
    places_are_inside();
    puts_stay_within();
    bytes_stand();
    bytes_stand_beside();
}

/// Whatever is read where an instruction with operands or a prefix is loaded, with any bytes in its
/// fields, does what its item may do. So it is for a direct jump of the loop group, if the bytes of
/// its field lead to the target.
pub fn encodings_are_read_loaded()
    ensures { EncodingsAreReadLoaded }
{
    loaded_codes_stand();
    encoding_stands();
    fields_stand_apart();
    loaded_bytes_obey();
    items_are_read();
}

/// Such an instruction that is no direct jump is laid as an item of its bytes.
pub fn encodings_are_laid()
    ensures { EncodingsAreLaid }
{
    encodings_are_read_loaded();
    nodes_suit_items();
}
