//! What holds of every instruction behind a `.loc`.

ghost use Rattle.loc_laws.specs.Locs.{LocsReadBack};

use asm_place::{
    encoding_items, encoding_stands, instruction_items, instruction_stands,
    instructions_keep_lines, jump_items, lines_follow, placing_grows, placing_within,
};
use asm_relax::layouts_keep_sections;
use line_directives::directives_mean_rows;
use line_laws::line_tables_read;
use piece_laws::places_rise;
use place_laws::{layouts_keep_items, runs_move_nothing};
use readback_laws::{framed_tables_are_ready, statements_read_back};
use x86_lookup::bare_codes_read;
use x86_table::instruction_length;

/// In the object of a layout of all that statements place, the table in `.debug_line` gives, by its
/// bytes alone, for each instruction of a section in which a `.loc` stands before it: the row of the
/// last such `.loc`, at the instruction's distance from the first row of the section. The place
/// of the instruction is the one at which its bytes read back.
pub fn locs_read_back()
    ensures { LocsReadBack }
{
    placing_within();
    placing_grows();
    lines_follow();
    instructions_keep_lines();
    instruction_items();
    encoding_items();
    jump_items();
    instruction_stands();
    encoding_stands();
    layouts_keep_items();
    runs_move_nothing();
    bare_codes_read();
    instruction_length();
    directives_mean_rows();
    places_rise();
    layouts_keep_sections();
    line_tables_read();
    framed_tables_are_ready();
    statements_read_back();
}
