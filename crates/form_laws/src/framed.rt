//! What frame tables and line tables add to symbols.

ghost use Rattle.form_laws.specs.Framed.{LinesAddLabels, TablesAddLabels, TablesKeepTargets};

use crate::forms::forms_name_symbols;
use asm_place::places_stand;
use eh_frame::tables_get_labels;
use line_table::others_stay;

/// A frame table adds labels alone to the symbols of a source, behind them, and so does a line table:
/// so targets and nodes by the symbols before are those by the symbols after.
pub fn tables_add_labels()
    ensures adds { TablesAddLabels }
    ensures lines { LinesAddLabels }
    ensures keeps { TablesKeepTargets }
{
    tables_get_labels();
    others_stay();
    forms_name_symbols();
    places_stand();
}
