//! What holds of every frame table in an object file.

ghost use Rattle.frame_laws.specs.TableReads.{FrameTablesRead};

use crate::counts::labels_are_few;
use asm_relax::layouts_keep_sections;
use cfi_entries::common_entries_read;
use eh_frame::{commons_are_shared, entries_read, tables_are_found, tables_stand_behind};
use piece_laws::{places_rise, tables_are_in_file};
use table_pieces::{ends_are_counted, places_are_named, sections_keep_places};

/// In the object of every layout in which no section is too large, whatever is put behind the table into other sections,
/// there stand in `.eh_frame`, up to the section's end, the entries of the procedures in order, one directly behind the other:
/// of each its CIE, unless an earlier procedure shares it, then its FDE. The CIE pointer of an FDE leads back to the CIE of
/// the first procedure that shares it, which says how pointers are written and names the personality; its initial location is
/// the procedure's beginning, by one relocation where that is in another section, its range the procedure's, it names the
/// procedure's LSDA, and at each distance from there the CIE and the FDE give, by their bytes, the row that the directives of
/// the procedure mean, and none from its end on.
pub fn frame_tables_read()
    ensures { FrameTablesRead }
{
    layouts_keep_sections();
    common_entries_read();
    places_are_named();
    sections_keep_places();
    ends_are_counted();
    places_rise();
    tables_are_in_file();
    commons_are_shared();
    tables_are_found();
    tables_stand_behind();
    entries_read();
    labels_are_few();
}
