//! What holds of every line table in an object file.

ghost use Rattle.line_laws.specs.TableReads.{LineTablesRead};

use asm_relax::layouts_keep_sections;
use leb128::numbers_read_back;
use line_directives::directives_mean_rows;
use line_rows::{places_are_distances, sections_are_sequences, tables_read_back};
use line_table::{labels_stand, tables_are_found, tables_stand_behind};
use piece_laws::{places_rise, tables_are_in_file};
use table_pieces::{places_are_named, sections_keep_places};

/// In the file of every layout in which no section is too large, the table of `.file` and `.loc` is all of `.debug_line`. For
/// each section with rows it has a sequence, in the order of the sections: at each distance from its first row it gives, by
/// its bytes, the row that the directives mean there, and none from the section's end on; and the place of that first row is
/// the sequence's address, by one relocation.
pub fn line_tables_read()
    ensures { LineTablesRead }
{
    numbers_read_back();
    sections_are_sequences();
    places_are_distances();
    tables_read_back();
    directives_mean_rows();
    layouts_keep_sections();
    places_are_named();
    sections_keep_places();
    places_rise();
    tables_are_in_file();
    tables_are_found();
    tables_stand_behind();
    labels_stand();
}
