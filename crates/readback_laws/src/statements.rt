//! Statements in their object.

ghost use Rattle.readback_laws.specs.Origins.{TablesContinue};
ghost use Rattle.readback_laws.specs.ReadsBack.{StatementsReadBack};

use asm_expr::coefficients_add;
use asm_place::{
    encoding_items, instruction_items, jump_items, jumps_read, lines_follow, places_stand,
    placing_within, procedures_stand_in_order,
};
use asm_relax::{
    distances_lead_to_labels, layouts_keep_sections, settled_is_placed, settled_items_have_room,
    sizes_add_up,
};
use elf_object::{bytes_stand, items_stand, values_stand};
use frame_laws::frame_tables_read;
use item_bytes::jump_reads_back;
use line_table::{labels_are_few, others_stay};
use place_laws::layouts_are_low;
use x86_encode::{encodings_are_codes, fields_stand_apart};
use x86_lookup::bare_codes_read;
use x86_table::read_one_way;

/// The frame table and the line table leave all that was placed where it stands, and the symbols that
/// come with them are labels.
pub fn tables_continue()
    ensures { TablesContinue }
{
    placing_within();
    places_stand();
    procedures_stand_in_order();
    eh_frame::tables_are_found();
    eh_frame::labels_stand();
    lines_follow();
    others_stay();
    line_table::labels_stand();
}

/// In the object of a layout of all that statements place, each instruction of them stands where the
/// statements before it end, as bytes that read as it, with the values that its fields have there,
/// and as no other instruction. A direct jump, short or near, reads as the jump to its target: a
/// label stands as far from the place behind the jump as the jump's bytes say. The frame table of
/// the procedures stands in the object, with the line table behind it: at each place of a procedure
/// its entry gives, by its bytes, the row that the procedure's directives mean there. Frames that
/// were worked out stand in place of procedures.
pub fn statements_read_back()
    ensures { StatementsReadBack }
{
    layouts_keep_sections();
    settled_is_placed();
    bytes_stand();
    values_stand();
    read_one_way();
    bare_codes_read();
    encodings_are_codes();
    fields_stand_apart();
    items_stand();
    sizes_add_up();
    settled_items_have_room();
    layouts_are_low();
    distances_lead_to_labels();
    coefficients_add();
    placing_within();
    places_stand();
    eh_frame::tables_are_found();
    eh_frame::labels_stand();
    lines_follow();
    others_stay();
    line_table::tables_are_found();
    line_table::labels_stand();
    labels_are_few();
    instruction_items();
    encoding_items();
    jump_items();
    jumps_read();
    jump_reads_back();
    procedures_stand_in_order();
    frame_tables_read();
}
