//! What the line table of statements is put to.

ghost use Rattle.readback_laws.specs.FramedTables.{FramedTablesReady};

use asm_expr::coefficients_add;
use asm_place::{
    encoding_items, instruction_items, jump_items, jumps_read, lines_follow, places_stand,
    placing_within, procedures_stand_in_order,
};
use asm_relax::{
    distances_lead_to_labels, layouts_keep_sections, settled_is_placed, settled_items_have_room,
    sizes_add_up,
};
use eh_frame::tables_get_labels;
use elf_object::{bytes_stand, items_stand, values_stand};
use item_bytes::jump_reads_back;
use line_table::{labels_are_few, others_stay};
use place_laws::layouts_are_low;
use table_pieces::places_are_named;

/// What statements place is ready for a line table once their frame table is put, and no section of
/// the layout of all is too large.
pub fn framed_tables_are_ready()
    ensures { FramedTablesReady }
{
    layouts_keep_sections();
    settled_is_placed();
    bytes_stand();
    values_stand();
    items_stand();
    sizes_add_up();
    settled_items_have_room();
    layouts_are_low();
    distances_lead_to_labels();
    coefficients_add();
    placing_within();
    places_stand();
    places_are_named();
    tables_get_labels();
    eh_frame::tables_are_found();
    eh_frame::labels_stand();
    lines_follow();
    others_stay();
    line_table::tables_are_found();
    line_table::labels_stand();
    labels_are_few();
    instruction_items();
    encoding_items();
    jump_items();
    jumps_read();
    jump_reads_back();
    procedures_stand_in_order();
}
